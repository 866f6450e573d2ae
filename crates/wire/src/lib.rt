// The bytes of a script (docs/SCRIPT.md): a request as it is read, what it asks, and a reply from the answer that each call gives.
#![tactic(auto)]

pub mod operation;
pub mod reply;
pub mod request;
