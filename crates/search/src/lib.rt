// The parameterized reachability search: who stands over what, by the rules D1 to D3, at the places of the tables.
//
// A level is its rank: Relay 0, Read 1, Edit 2, Admin 3. A grade is a delegation's level c(d) plus one, and 0 where the delegation
// is not usable. A byte of a row is a level plus one, and 0 for none. Within a search a row is a word of keys for each level.
// Both stay bytes with a 0, and no Option: they stand in fixed tables that the walk reads at each step.
//
// delegations  what is lent to a search: the delegations, their index and their grades
// edges        the delegations by subject and issuer: the adjacency that the search walks
// widest       one pass: a root's row, with the rows found so far
// rounds       passes over the roots whose rows can still rise
// levels       what is read off the levels that were found
#![tactic(auto)]

pub mod delegations;
pub mod edges;
pub mod levels;
pub mod rounds;
pub mod widest;

ghost use Rattle.std.specs.Prelude.{ℕ, ◌≤◌};
ghost use Rattle.keyset.specs.Word.{bit};
ghost use Rattle.search.specs.Graph.{Holds};
ghost use Rattle.search.specs.Delegations.{graph_of};
ghost use Rattle.search.specs.Levels.{Found};
ghost use Rattle.search.specs.Walk.{Sound};

use delegations::Delegations;
use places::{KEY_LIMIT, LEVEL_COUNT};

// For each root its words: the keys that stand over it at Relay or above, Read or above, Edit or above, Admin.
pub type Levels = [u64; KEY_LIMIT * LEVEL_COUNT];

// The levels over each of the roots, and over every subject discovered on the way. Returns all of these roots.
// What levels holds at entry may be anything that is derived: nothing, or what a search over lower grades has found.
pub fn search(delegations: &Delegations, exclude: u64, roots: u64, levels: &mut Levels) -> u64
    requires { Sound (graph_of delegations.now exclude) levels.old }
    ensures { Found (Holds (graph_of delegations.now exclude)) result levels.new × ((j : ℕ) → bit roots j ≤ bit result j) }
{
    let mut known = roots;
    let mut left = roots;
    while left != 0 {
        let t = rounds::round(delegations, exclude, known, left, levels);
        known = t.known;
        left = t.due;
    }
    known
}
