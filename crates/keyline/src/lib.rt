// The base of keyline: refusals with their numbers, and the limits.
// Each contract cites definitions in specs/, which stand beside the words of document 01; proofs/ has the theorems about them.
#![tactic(auto)]

pub mod limits;
pub mod refusal;
pub mod standing;
