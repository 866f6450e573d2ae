// Lists over what a store holds, ascending, in lent buffers.
#![tactic(auto)]

pub mod lists;
pub mod mark;
pub mod write;
