// The rule book: its records, the order in which they are refused, and where its rules, wordings and conditions stand.
#![tactic(auto)]

pub mod judgement;
pub mod reader;
pub mod record;
pub mod refusal;
pub mod rules;
