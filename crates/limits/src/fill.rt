// Sets filled with certificates of one kind, each made from its number.

use crate::certificate::{Certificate, delegation, reading, revocation};
use keyline_memory::state::State;
use std::ops::Range;

#[derive(Clone, Copy)]
pub(crate) enum Kind {
    // Key 0 lets each other key read: n delegations have n + 1 keys.
    Star,
    // 32 audiences and 4 subjects: 128 delegations have 36 keys, and no two have the same content.
    Grid,
    // Each of 64 keys lets the next one read itself, and once more edit: 64 keys, and as many subjects.
    Ring,
    // One audience and one subject, and a citation that tells them apart.
    Parallel,
    // Revocations by key 0, of digest n + 64.
    Each,
    // Revocations by key 0, of digest 7.
    Named,
}

impl Kind {
    fn certificate(self, n: u8) -> Certificate {
        match self {
            Kind::Star => reading(n, 0, n.saturating_add(1), 0),
            Kind::Grid => reading(n, 0, 4 + n % 32, n / 32),
            Kind::Ring => {
                let key = n % 64;
                let power = if n < 64 { b'R' } else { b'E' };
                delegation(n, key, (key + 1) % 64, key, power, None)
            }
            Kind::Parallel => delegation(n, 0, 1, 0, b'R', Some(n.saturating_add(1))),
            Kind::Each => revocation(n, 0, n.saturating_add(64)),
            Kind::Named => revocation(n, 0, 7),
        }
    }
}

// Puts the certificates with those numbers into the set.
pub(crate) fn fill(s: &mut State, kind: Kind, numbers: Range<u8>) {
    for n in numbers {
        let certificate = kind.certificate(n);
        certificate.insert(s, certificate.lengths());
    }
}

// The first n of the kind, in a new set.
pub(crate) fn only(kind: Kind, n: u8) -> State {
    let mut s = State::new();
    fill(&mut s, kind, 0..n);
    s
}

// 64 keys, 128 delegations and 64 revocations.
pub(crate) fn full() -> State {
    let mut s = only(Kind::Ring, 128);
    fill(&mut s, Kind::Each, 0..64);
    s
}
