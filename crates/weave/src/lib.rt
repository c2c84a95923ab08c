// An added reading beside a room that is only read: what is seen of both, and which slots and old tokens are near enough to matter. And bytes passed, found and moved in blocks.
#![tactic(auto)]

pub mod blocks;
pub mod copy;
pub mod earlier;
pub mod made;
pub mod near;
pub mod scene;
pub mod span;
pub mod view;
