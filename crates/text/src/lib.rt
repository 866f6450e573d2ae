// Text that people write, as bytes: a line as it comes in, its words, and a name as a key. Everything here is total, whatever the bytes are.
#![tactic(auto)]

pub mod line;
pub mod name;
pub mod words;
