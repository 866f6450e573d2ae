// Covered delegations that share one exclusion set, and therefore one search: N(d) depends only on who revoked d, so one key's
// revocation spree yields one set.

ghost use Rattle.std.specs.Prelude.{◌≤◌, unwrap_or};
ghost use Rattle.places.specs.Limits.{delegation_limit, revocation_limit};
ghost use Rattle.coverage.specs.Contexts.{Sought, Grouped};

use places::{DELEGATION_LIMIT, REVOCATION_LIMIT};

#[derive(Clone, Copy)]
pub struct Groups {
    pub count: usize,
    // each context's exclusion set
    pub exclude: [u64; REVOCATION_LIMIT],
    // the revocations that name a delegation of the context
    pub members: [u64; REVOCATION_LIMIT],
    pub ghost few: { count ≤ revocation_limit },
}

// The first of the contexts that excludes w.
fn find(exclude: &[u64; REVOCATION_LIMIT], count: usize, w: u64) -> Option<usize>
    requires { count ≤ revocation_limit }
    ensures { Sought exclude.now count w (unwrap_or result count) }
{
    for c in 0..count {
        if exclude[c] == w {
            return Some(c);
        }
    }
    None
}

// The contexts of the covered ones among the first n delegations, by the first m revocations. It takes the one column that it reads: docs/ names
// it, and the type of facts asks more.
pub fn contexts(
    target: &[u8; REVOCATION_LIMIT],
    m: usize,
    n: usize,
    excluded: &[u64; DELEGATION_LIMIT],
) -> Groups
    requires { (m ≤ revocation_limit) × (n ≤ delegation_limit) }
    ensures { Grouped target.now excluded.now m n result.count result.exclude result.members }
{
    let mut count = 0;
    let mut exclude = [0u64; REVOCATION_LIMIT];
    let mut members = [0u64; REVOCATION_LIMIT];
    for j in 0..m {
        let d = usize::from(target[j]);
        if d < n {
            let w = excluded[d];
            if w != 0 {
                let c = find(&exclude, count, w).unwrap_or(count);
                exclude[c] = w;
                members[c] = keyset::with(members[c], j);
                if c == count {
                    count += 1;
                }
            }
        }
    }
    Groups {
        count,
        exclude,
        members,
    }
}
