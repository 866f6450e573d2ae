// Which places a list takes.
ghost use Rattle.std.specs.Prelude.{◌≡◌, true, false, cond, ℕ, ◌≤◌, ◌<◌, ◌+◌, ◌*◌, length, get_or, take, eqb};
ghost use Rattle.runs.specs.Bytes.{run_length, run_at, eq_bytes};
ghost use Rattle.keyline.specs.Limits.{key_limit, delegation_limit, revocation_limit};
ghost use Rattle.lists.specs.Marks.{among};

use keyline::limits::{DELEGATION_LIMIT, KEY_LIMIT, REVOCATION_LIMIT};
use places::KeyPlace;
use runs::bytes;

pub fn all() -> [bool; DELEGATION_LIMIT]
    ensures { (length result ≡ delegation_limit) × ((i : ℕ) → i < delegation_limit → get_or result i false ≡ true) }
{
    [true; DELEGATION_LIMIT]
}

// The keys that are the subject of one of n delegations.
pub fn subjects(subject: &[u8], n: usize) -> [bool; KEY_LIMIT]
    requires { (n ≤ length subject.now) × ((i : ℕ) → get_or subject.now i 0 < key_limit) }
    ensures { (length result ≡ key_limit) × ((k : ℕ) → get_or result k false ≡ among k (take n subject.now)) }
{
    let mut on = [false; KEY_LIMIT];
    for &key in &subject[..n] {
        on[usize::from(key)] = true;
    }
    on
}

// The n revocations that name the target.
pub fn naming(revoked: &[u8], n: usize, target: &[u8]) -> [bool; REVOCATION_LIMIT]
    requires { (n ≤ revocation_limit) × (run_length * n ≤ length revoked.now) }
    ensures { (length result ≡ revocation_limit) × ((i : ℕ) → i < n → get_or result i false ≡ eq_bytes (run_at revoked.now i) target.now) }
{
    let mut on = [false; REVOCATION_LIMIT];
    for i in 0..n {
        on[i] = bytes::same_at(revoked, i, target);
    }
    on
}

// The n delegations whose subject and audience stand at these places.
pub fn between<'a>(
    subjects: &'a [u8],
    audiences: &'a [u8],
    n: usize,
    subject: KeyPlace,
    audience: KeyPlace,
) -> [bool; DELEGATION_LIMIT]
    requires { (n ≤ delegation_limit) × (n ≤ length subjects.now) × (n ≤ length audiences.now) }
    ensures { (length result ≡ delegation_limit) × ((i : ℕ) → i < n → get_or result i false ≡ cond (eqb (get_or subjects.now i 0) subject.0) (eqb (get_or audiences.now i 0) audience.0) false) }
{
    let mut on = [false; DELEGATION_LIMIT];
    for i in 0..n {
        on[i] = usize::from(subjects[i]) == subject.0 && usize::from(audiences[i]) == audience.0;
    }
    on
}
