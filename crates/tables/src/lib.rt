// The tables of a store: held keys, delegations and revocations, column by column, and the answer to an insertion, by document 01's checks
// in their order. Nothing here changes more than one column; the store that the tables make is crate `store`.
#![tactic(auto)]

pub mod answer;
pub mod delegations;
pub mod keys;
pub mod revocations;
