// The covered delegations that a word over the places of revocations names: their subjects, and those of them whose issuer was reached. A
// context's members share one search, which begins at these subjects.

ghost use Rattle.std.specs.Prelude.{ℕ, ◌<◌, get_or};
ghost use Rattle.places.specs.Limits.{key_limit};
ghost use Rattle.search.specs.Sets.{Word, Among};
ghost use Rattle.search.specs.Levels.{On};
ghost use Rattle.coverage.specs.Contexts.{Within, Through};

use places::{KeyPlace, REVOCATION_LIMIT};
use search::Levels;
use search::delegations::Delegations;

// The subjects of the delegations that the members name.
pub fn roots(members: u64, target: &[u8; REVOCATION_LIMIT], delegations: &Delegations) -> u64
    requires within { Within members target.now }
    requires subject_lt { (d : ℕ) → get_or delegations.now.subject.now d 0 < key_limit }
    ensures { Word result (Through members (λ j. get_or delegations.now.subject.now (get_or target.now j 0) 0)) }
{
    let mut w = 0;
    let mut left = members;
    while left != 0 {
        let j = keyset::lowest(left);
        left = keyset::without(left, j);
        let d = usize::from(target[j]);
        w = keyset::with(w, usize::from(delegations.subject[d]));
    }
    w
}

// Those of the members whose delegation's issuer was reached over its subject.
pub fn reached(
    members: u64,
    target: &[u8; REVOCATION_LIMIT],
    delegations: &Delegations,
    found: &Levels,
) -> u64
    requires within { Within members target.now }
    requires subject_lt { (d : ℕ) → get_or delegations.now.subject.now d 0 < key_limit }
    ensures { Word result (Among members (λ j. On found.now 0 (get_or delegations.now.subject.now (get_or target.now j 0) 0) (get_or delegations.now.issuer.now (get_or target.now j 0) 0))) }
{
    let mut w = 0;
    let mut left = members;
    while left != 0 {
        let j = keyset::lowest(left);
        left = keyset::without(left, j);
        let d = usize::from(target[j]);
        let root = KeyPlace(usize::from(delegations.subject[d]));
        let issuer = KeyPlace(usize::from(delegations.issuer[d]));
        if search::levels::reached(found, root, issuer) {
            w = keyset::with(w, j);
        }
    }
    w
}
