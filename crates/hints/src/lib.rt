// Where to look first for a key or a digest. Two bytes of a run choose a slot, and the slot says at which place of the table such a run was seen
// last. A hint is followed and never believed: the run at its place is compared, and where it is another one, the table is searched. So
// no contract says what a hint is.
#![tactic(auto)]

ghost use Rattle.std.specs.Prelude.{◌≡◌, ◌+◌, ◌*◌, ◌<◌, ◌≤◌, length, IfSome};
ghost use Rattle.runs.specs.Bytes.{run_length, run_at, eq_bytes};
ghost use Rattle.runs.specs.Table.{large_limit};
ghost use Rattle.hints.specs.Slots.{slots};

use runs::bytes;
use runs::bytes::RUN_LENGTH;
use store::Store;

pub const SLOTS: usize = 512;

// Which two bytes of a run choose its slot: the first two, or the last two.
pub const FRONT: usize = 0;

pub const BACK: usize = RUN_LENGTH - 2;

#[derive(Clone, Copy)]
pub struct Hints {
    pub keys: [u8; SLOTS],
    pub delegations: [u8; SLOTS],
}

// One bit of the first byte, and the second byte.
fn slot(a: u8, b: u8) -> usize
    ensures { result < slots }
{
    256 * usize::from(a % 2) + usize::from(b)
}

// The places of the table's first n runs, each in its slot; of two with one slot the later.
fn fill(table: &[u8], n: usize, way: usize) -> [u8; SLOTS]
    requires { (run_length * n ≤ length table.now) × (n ≤ large_limit) × (way + 1 < run_length) }
{
    let mut hints = [0; SLOTS];
    for i in 0..n {
        let run = bytes::run_at(table, i);
        hints[slot(run[way], run[way + 1])] = i as u8;
    }
    hints
}

// The hints of a store's keys and delegations.
pub fn hints_of(store: &Store, way: usize) -> Hints
    requires { way + 1 < run_length }
{
    Hints {
        keys: fill(&store.keys.table, store.keys.count, way),
        delegations: fill(&store.delegations.digests, store.delegations.count, way),
    }
}

// Whether the run at place i is the one given. runs::bytes::same_at says the same by `==`; a hint is most often right, and on equal runs this loop,
// which compares all bytes at once, took two thirds of its time.
fn same(table: &[u8], i: usize, run: &[u8]) -> bool
    requires { (run_length * i + run_length ≤ length table.now) × (length run.now ≡ run_length) }
    ensures { result ≡ eq_bytes (run_at table.now i) run.now }
{
    let there = bytes::run_at(table, i);
    let mut is = true;
    for j in 0..RUN_LENGTH {
        is &= there[j] == run[j];
    }
    is
}

// The place of the run, if the hint is right; None where it is not, be the run in the table or not.
pub fn look(table: &[u8], n: usize, hints: &[u8; SLOTS], way: usize, run: &[u8]) -> Option<usize>
    requires { (run_length * n ≤ length table.now) × (way + 1 < run_length) }
    ensures { IfSome result (λ i. (i < n) × (run_at table.now i ≡ run.now)) }
{
    if run.len() != RUN_LENGTH {
        return None;
    }
    let i = usize::from(hints[slot(run[way], run[way + 1])]);
    if i < n && same(table, i, run) {
        return Some(i);
    }
    None
}
