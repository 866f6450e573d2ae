// The store: what it holds, the empty one, and how much it holds. What is put into it is in insertion.
#![tactic(auto)]

ghost use Rattle.std.specs.Prelude.{◌≡◌, eqb};
ghost use Rattle.tables.specs.Committed.{nothing, length_of};
ghost use Rattle.store.specs.Parts.{GoodParts};

use keyline::limits::{DELEGATION_LIMIT, REVOCATION_LIMIT};
use runs::bytes::RUN_LENGTH;
use runs::table::{LARGE_TABLE, SMALL_TABLE};
use tables::delegations::Delegations;
use tables::keys::Keys;
use tables::revocations::Revocations;

#[derive(Clone, Copy)]
pub struct Store {
    pub keys: Keys,
    pub delegations: Delegations,
    pub revocations: Revocations,
    pub version: u64,
    pub ghost good: { GoodParts keys delegations revocations version },
}

impl Store {
    ghost use Rattle.store.specs.Store.{committed};

    // The empty one.
    pub fn new() -> Store
        ensures { committed result ≡ nothing }
    {
        Store {
            keys: Keys {
                table: [0; SMALL_TABLE],
                count: 0,
            },
            delegations: Delegations {
                digests: [0; LARGE_TABLE],
                count: 0,
                issuer: [0; DELEGATION_LIMIT],
                audience: [0; DELEGATION_LIMIT],
                subject: [0; DELEGATION_LIMIT],
                power: [0; DELEGATION_LIMIT],
                cited: [false; DELEGATION_LIMIT],
                citation: [0; RUN_LENGTH * DELEGATION_LIMIT],
            },
            revocations: Revocations {
                digests: [0; SMALL_TABLE],
                count: 0,
                issuer: [0; REVOCATION_LIMIT],
                revoked: [0; RUN_LENGTH * REVOCATION_LIMIT],
            },
            version: 0,
        }
    }

    // How many certificates were ever added.
    pub fn version(&self) -> u64
        ensures { result ≡ length_of (committed self.now) }
    {
        self.version
    }

    pub fn len(&self) -> usize
        ensures { result ≡ length_of (committed self.now) }
    {
        self.delegations.count + self.revocations.count
    }

    pub fn is_empty(&self) -> bool
        ensures { result ≡ eqb (length_of (committed self.now)) 0 }
    {
        self.len() == 0
    }
}
