// An added reading's place among the others and its row of memories, worked out aside.
#![tactic(auto)]

pub mod order;
pub mod row;
