// The work room: its layout, the rule behind refusal 10, and what is written into its parts.
#![tactic(auto)]

pub mod broken;
pub mod count;
pub mod layout;
pub mod table;
pub mod write;
