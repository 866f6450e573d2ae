// Runs of 32 bytes, keys or digests, in arrays of bytes that are lent: comparing them, a table of them with its ascending order, lists of them.
#![tactic(auto)]

pub mod bytes;
pub mod list;
pub mod table;
