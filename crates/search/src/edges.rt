// The delegations by subject and issuer, as the Rust's `edges: subject -> issuer -> edges`: each pair's delegations are a chain
// that starts at the last one and goes down, so a walk along it ends. It depends on no grade, so one evaluation builds it once.
//
// A place is kept as one more than it, and 0 where there is none: no Option, since a byte in a fixed table is what a walk reads at each step.

ghost use Rattle.std.specs.Prelude.{ℕ, ◌≤◌, ◌<◌, get_or};
ghost use Rattle.places.specs.Limits.{key_limit, delegation_limit};
ghost use Rattle.search.specs.Index.{Indexed};

use places::{DELEGATION_LIMIT, KEY_LIMIT};

#[derive(Clone, Copy)]
pub struct Edges {
    // for each subject the keys that issued about it
    pub issuers: [u64; KEY_LIMIT],
    // at subject * KEY_LIMIT + issuer one more than the last delegation of the pair, and 0 where it has none
    pub last: [u8; KEY_LIMIT * KEY_LIMIT],
    // for each delegation one more than the one before it of the same pair, and 0 where it is the first
    pub earlier: [u8; DELEGATION_LIMIT],
}

// The chains of the first n delegations.
pub fn index(issuer: &[u8; DELEGATION_LIMIT], subject: &[u8; DELEGATION_LIMIT], n: usize) -> Edges
    requires { (n ≤ delegation_limit) × ((d : ℕ) → get_or issuer.now d 0 < key_limit) × ((d : ℕ) → get_or subject.now d 0 < key_limit) }
    ensures { Indexed issuer.now subject.now n result.issuers result.last result.earlier }
{
    let mut issuers = [0u64; KEY_LIMIT];
    let mut last = [0u8; KEY_LIMIT * KEY_LIMIT];
    let mut earlier = [0u8; DELEGATION_LIMIT];
    for d in 0..n {
        let r = usize::from(subject[d]);
        let u = usize::from(issuer[d]);
        let at = r * KEY_LIMIT + u;
        issuers[r] = keyset::with(issuers[r], u);
        earlier[d] = last[at];
        last[at] = (d + 1) as u8;
    }
    Edges {
        issuers,
        last,
        earlier,
    }
}
