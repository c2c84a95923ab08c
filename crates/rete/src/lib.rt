// One step over the tokens of all rules: those after an addition, worked out aside, and those after a removal, in their place.
#![tactic(auto)]

pub mod rules;
pub mod sift;
pub mod tables;
