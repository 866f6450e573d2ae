// Certificates by identity: whether one is held, and its parts in two lent buffers.
#![tactic(auto)]

pub mod lookup;
pub mod put;
