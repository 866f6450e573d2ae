// What the queries of an evaluated set answer, what their statements are worth (each settles its answer; demand 3), and what a query does before
// and after it asks the evaluation: places from bytes, the tables' columns as facts, marks over the tables.
#![tactic(auto)]

pub mod answer;
pub mod facts;
pub mod marks;
pub mod sought;
