// Stratum 1: coverage. N(d) is the revokers of d together with the subjects that one of them administers; d is covered when a key of
// N(d) stands over its subject. Who stands is asked with every held delegation usable and nobody excluded (positive).
//
// A covered delegation is named by a revocation, so a set of covered delegations is one word over the places of revocations.

ghost use Rattle.std.specs.Prelude.{ℕ, ◌<◌, ◌≤◌, get_or};
ghost use Rattle.places.specs.Limits.{key_limit, delegation_limit, revocation_limit};
ghost use Rattle.rules.specs.Rules.{Admin};
ghost use Rattle.search.specs.Sets.{Says, Word, Among};
ghost use Rattle.search.specs.Levels.{word};
ghost use Rattle.coverage.specs.Arrays.{Filled};
ghost use Rattle.coverage.specs.Coverage.{RevokersBy, Shared, Exclusion};

use places::{ADMIN, DELEGATION_LIMIT, KeyPlace, RELAY, REVOCATION_LIMIT};
use search::Levels;

// For each of the first n delegations the issuers of the revocations that name it, of which there are m. It takes the columns that it reads, as
// coverage does: the proof map names both, and the type of facts asks more.
pub fn revokers(
    revoker: &[u8; REVOCATION_LIMIT],
    target: &[u8; REVOCATION_LIMIT],
    m: usize,
    n: usize,
) -> [u64; DELEGATION_LIMIT]
    requires { (m ≤ revocation_limit) × (n ≤ delegation_limit) × ((j : ℕ) → get_or revoker.now j 0 < key_limit) }
    ensures { RevokersBy revoker.now target.now m n result }
{
    let mut words = [0u64; DELEGATION_LIMIT];
    for j in 0..m {
        let d = usize::from(target[j]);
        if d < n {
            words[d] = keyset::with(words[d], usize::from(revoker[j]));
        }
    }
    words
}

// Whether two words share a key.
fn share(a: u64, b: u64) -> bool
    ensures { Says result (Shared a b) }
{
    keyset::meet(a, b) != 0
}

// The subjects over which a key of w stands at Admin.
fn administered(w: u64, subjects: u64, found: &Levels) -> u64
    ensures { Word result (Among subjects (λ s. Shared (word found.now s Admin) w)) }
{
    let mut r = 0;
    let mut left = subjects;
    while left != 0 {
        let s = keyset::lowest(left);
        left = keyset::without(left, s);
        if share(search::levels::holders(found, KeyPlace(s), ADMIN), w) {
            r = keyset::with(r, s);
        }
    }
    r
}

// N(d) for the revokers w of a delegation about s where it is covered, and 0 where it is not.
fn exclusion(w: u64, s: usize, subjects: u64, found: &Levels) -> u64
    requires { s < key_limit }
    ensures { Exclusion w s subjects found.now result }
{
    if w == 0 {
        return 0;
    }
    let all = keyset::union(w, administered(w, subjects, found));
    if share(all, search::levels::holders(found, KeyPlace(s), RELAY)) {
        all
    } else {
        0
    }
}

// For each of the first n delegations N(d) where it is covered, and 0 where it is not.
pub fn coverage(
    subject: &[u8; DELEGATION_LIMIT],
    n: usize,
    subjects: u64,
    revokers: &[u64; DELEGATION_LIMIT],
    found: &Levels,
) -> [u64; DELEGATION_LIMIT]
    requires { (n ≤ delegation_limit) × ((d : ℕ) → get_or subject.now d 0 < key_limit) }
    ensures { Filled n (λ d w. Exclusion (get_or revokers.now d 0) (get_or subject.now d 0) subjects found.now w) result }
{
    let mut excluded = [0u64; DELEGATION_LIMIT];
    for d in 0..n {
        excluded[d] = exclusion(revokers[d], usize::from(subject[d]), subjects, found);
    }
    excluded
}
