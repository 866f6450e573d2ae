// Stratum 1: positive power. Every held delegation is usable at its stated power, and nobody is excluded.

ghost use Rattle.std.specs.Prelude.{◌≡◌, ℕ, ◌+◌, ◌<◌, ◌≤◌, get_or};
ghost use Rattle.places.specs.Limits.{key_limit, delegation_limit};
ghost use Rattle.rules.specs.Rules.{Admin};
ghost use Rattle.search.specs.Sets.{Word};
ghost use Rattle.coverage.specs.Arrays.{Any, Filled};

use places::DELEGATION_LIMIT;

// The subjects of the first n delegations. It takes the one column that it reads: the proof map names it, and the type of facts asks more.
pub fn subjects(subject: &[u8; DELEGATION_LIMIT], n: usize) -> u64
    requires { (n ≤ delegation_limit) × ((d : ℕ) → get_or subject.now d 0 < key_limit) }
    ensures { Word result (Any n (λ d k. get_or subject.now d 0 ≡ k)) }
{
    let mut w = 0;
    for d in 0..n {
        w = keyset::with(w, usize::from(subject[d]));
    }
    w
}

// The grades of the first n delegations at their stated power. It too takes the one column that it reads.
pub fn powers(power: &[u8; DELEGATION_LIMIT], n: usize) -> [u8; DELEGATION_LIMIT]
    requires { (n ≤ delegation_limit) × ((d : ℕ) → get_or power.now d 0 ≤ Admin) }
    ensures { Filled n (λ d v. v ≡ get_or power.now d 0 + 1) result }
{
    let mut grades = [0u8; DELEGATION_LIMIT];
    for d in 0..n {
        grades[d] = power[d] + 1;
    }
    grades
}
