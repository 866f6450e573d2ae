// Document 01's "Terms and sizes" and the payload's layout, each number named once for the code.
// specs/Limits.antt has the same names for the contracts.

// "A key (the Rust's Identifier) is 32 bytes"; "A digest is 32 bytes".
pub const KEY_LENGTH: usize = 32;

pub const DIGEST_LENGTH: usize = 32;

// "audience 32, subject 32, power 1, tag 1, then 32 bytes of citation": the power byte's place, the tag's, and both lengths.
pub const POWER_AT: usize = KEY_LENGTH + KEY_LENGTH;

pub const TAG_AT: usize = POWER_AT + 1;

pub const PAYLOAD_LENGTH: usize = TAG_AT + 1;

pub const CITED_LENGTH: usize = PAYLOAD_LENGTH + DIGEST_LENGTH;

// "A store holds at most 64 keys, 128 delegations and 64 revocations."
pub const KEY_LIMIT: usize = 64;

pub const DELEGATION_LIMIT: usize = 128;

pub const REVOCATION_LIMIT: usize = 64;
