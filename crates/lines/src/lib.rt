// A complaint found among the stored tokens, and written as a line.
#![tactic(auto)]

pub mod find;
pub mod text;
