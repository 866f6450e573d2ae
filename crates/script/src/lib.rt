// The whole kernel as one call on a script of bytes: requests one after the other, and for each a reply. docs/SCRIPT.md has the format.
#![tactic(auto)]

pub mod answer;
pub mod ask;
pub mod run;
