// The certificate set (state.rs): every call of document 01 that needs no evaluation, and evaluate. The queries of what it gives are in queries.
#![tactic(auto)]

pub mod state;
