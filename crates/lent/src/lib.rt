// Bytes at a place of a lent buffer.
#![tactic(auto)]

pub mod bytes;
