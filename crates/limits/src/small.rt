// A small set whose every list has items, inserted in no order: the delegations 10 to 15 and the revocations 20 to 24.
// Key 1 is the subject; 8 and 9 are strangers; the delegation 13 and its revocation have nothing to do with key 1.

use crate::certificate::{Certificate, delegation, reading, revocation};
use crate::insert;
use keyline_memory::state::State;

// 1>2 Edit/1.
pub(crate) fn edit() -> Certificate {
    delegation(10, 1, 2, 1, b'E', None)
}

// 2>3 Admin/1, with a citation.
pub(crate) fn cited() -> Certificate {
    delegation(11, 2, 3, 1, b'A', Some(77))
}

pub(crate) fn set() -> State {
    let mut s = State::new();
    let certificates = [
        reading(15, 1, 3, 1),
        reading(12, 1, 4, 1),
        // 2>7 Relay/2.
        delegation(14, 2, 7, 2, b'L', None),
        cited(),
        reading(13, 5, 6, 5),
        edit(),
        // The strangers revoke 11, key 1 revokes 12, key 5 revokes 13; 99 is not held.
        revocation(24, 9, 11),
        revocation(22, 9, 99),
        revocation(21, 1, 12),
        revocation(23, 5, 13),
        revocation(20, 8, 11),
    ];
    insert::all(&mut s, &certificates);
    s
}
