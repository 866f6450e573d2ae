// Places in the tables of keys, delegations and revocations, apart by type, and how many places each table has.
// specs/Limits.antt has the same numbers for contracts.
#![tactic(auto)]

pub const KEY_LIMIT: usize = keyline::limits::KEY_LIMIT;

pub const DELEGATION_LIMIT: usize = keyline::limits::DELEGATION_LIMIT;

pub const REVOCATION_LIMIT: usize = keyline::limits::REVOCATION_LIMIT;

// Relay, Read, Edit, Admin: a level is its rank.
pub const LEVEL_COUNT: usize = 4;

pub const RELAY: usize = 0;

pub const ADMIN: usize = 3;

#[derive(Clone, Copy)]
pub struct KeyPlace(pub usize);

#[derive(Clone, Copy)]
pub struct DelegationPlace(pub usize);

#[derive(Clone, Copy)]
pub struct RevocationPlace(pub usize);
