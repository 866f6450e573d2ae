// The questions that gather what they answer from the whole of a store and its evaluation, and write it into the caller's buffers: the members
// of a subject, and its closure. Those about one pair of keys are in powers, those about one delegation in powers and standings.
#![tactic(auto)]

pub mod closure;
pub mod members;
