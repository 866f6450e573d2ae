// The delegation payload that strangers send, read and written (delegation.rs). Each contract cites specs/Delegation, which stands beside the
// words of document 01; proofs/ has the theorems about it.
#![tactic(auto)]

pub mod delegation;
