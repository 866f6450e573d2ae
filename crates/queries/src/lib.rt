// The evaluated set and its queries: the half of state.rs that reads an evaluation.
#![tactic(auto)]

pub mod evaluated;
