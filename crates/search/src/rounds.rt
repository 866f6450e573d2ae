// Rounds of passes. A round passes the roots that are left; a root whose members' rows rose, or that was discovered, falls due in the
// next. A root that is not due has a row to which no rule adds, so a search ends when none is due: what can still rise bounds the rounds.

ghost use Rattle.std.specs.Prelude.{◌<◌};
ghost use Rattle.keyset.specs.Word.{size};
ghost use Rattle.places.specs.Limits.{key_limit, level_count};
ghost use Rattle.search.specs.Sets.{Word, Among};
ghost use Rattle.search.specs.Delegations.{graph_of};
ghost use Rattle.search.specs.Levels.{On};
ghost use Rattle.search.specs.Rounds.{Stored, Going, Passed};

use crate::Levels;
use crate::delegations::Delegations;
use crate::widest::widest;
use places::LEVEL_COUNT;

// Puts a pass's words at r's places, and says whether one of them has a key more.
fn store(r: usize, row: &[u64; LEVEL_COUNT], levels: &mut Levels) -> bool
    requires { r < key_limit }
    ensures { Stored r level_count row.now levels.old levels.new result }
{
    let mut rose = false;
    for l in 0..LEVEL_COUNT {
        let at = r * LEVEL_COUNT + l;
        let fresh = keyset::minus(row[l], levels[at]);
        rose |= fresh != 0;
        levels[at] = row[l];
    }
    rose
}

// Those of the roots over which r stands.
fn waiting(r: usize, roots: u64, levels: &Levels) -> u64
    requires { r < key_limit }
    ensures { Word result (Among roots (λ q. On levels.now 0 q r)) }
{
    let mut w = 0;
    let mut left = roots;
    while left != 0 {
        let q = keyset::lowest(left);
        left = keyset::without(left, q);
        if keyset::has(levels[q * LEVEL_COUNT], r) {
            w = keyset::with(w, q);
        }
    }
    w
}

// Where a round stands: the roots that are known, those that are left in this round, and those due in the next.
#[derive(Clone, Copy)]
pub struct Turn {
    pub known: u64,
    pub left: u64,
    pub due: u64,
}

// One root's pass within a round.
fn pass(delegations: &Delegations, exclude: u64, s: Turn, levels: &mut Levels) -> Turn
    requires going { Going (graph_of delegations.now exclude) delegations.now.subjects s.known s.left s.due levels.old }
    requires left_nonzero { 0 < s.left }
    ensures passed { Passed (graph_of delegations.now exclude) delegations.now.subjects s.known s.due levels.old result.known result.left result.due levels.new }
    ensures left_bound { size key_limit result.left < size key_limit s.left }
{
    let known = s.known;
    let left = s.left;
    let r = keyset::lowest(left);
    let row = widest(delegations, exclude, r, levels);
    let found = keyset::meet(row[0], delegations.subjects);
    let fresh = keyset::minus(found, known);
    let due = keyset::union(s.due, fresh);
    let rest = keyset::without(left, r);
    let all = keyset::union(known, found);
    if store(r, &row, levels) {
        let others = waiting(r, keyset::minus(known, left), levels);
        return Turn {
            known: all,
            left: rest,
            due: keyset::union(due, others),
        };
    }
    Turn {
        known: all,
        left: rest,
        due,
    }
}

// A pass for each root that is left.
pub fn round(
    delegations: &Delegations,
    exclude: u64,
    known: u64,
    left: u64,
    levels: &mut Levels,
) -> Turn
    requires { Going (graph_of delegations.now exclude) delegations.now.subjects known left 0 levels.old }
    ensures { Passed (graph_of delegations.now exclude) delegations.now.subjects known 0 levels.old result.known 0 result.due levels.new }
{
    let mut s = Turn {
        known,
        left,
        due: 0,
    };
    while s.left != 0 {
        s = pass(delegations, exclude, s, levels);
    }
    s
}
