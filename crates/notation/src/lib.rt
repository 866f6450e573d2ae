// The text that people write certificates and questions in: document 01's own notation for specimens, a line for each. Everything here is
// total: whatever the bytes are, a line is a statement or is wrong for a reason that can be said.
#![tactic(auto)]

pub mod expected;
pub mod level;
pub mod reading;
pub mod statement;
