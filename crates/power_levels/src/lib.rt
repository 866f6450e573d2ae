// Power levels: their order, their bytes, and what each may do (power.rs).
// Each contract cites definitions in specs/, which stand beside the words of document 01; proofs/ has the theorems about them.
#![tactic(auto)]

pub mod power;
