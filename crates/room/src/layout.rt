// Where each part of a room begins. Beside the header, which is read in many places, only this file and those of `room` know it.
// docs/ROOM.md has the table.

// Header: eight numbers of two bytes.
pub const HEAD: usize = 0;
// The book, as it was lent.
pub const BOOK: usize = 16;
// For each condition, where in the book its first test would stand.
pub const CONDITION_PLACES: usize = 8208;
// For each rule: where its record stands, how many conditions it has, the index after its last token, the complete matches up to and with it.
pub const RULE_PLACES: usize = 8592;

pub const RULE_CONDITIONS: usize = 8656;

pub const ENDS: usize = 8688;

pub const COMPLETES: usize = 8752;
// All slots: those in use ascending by reading, then the free ones.
pub const ORDER: usize = 8816;
// Readings by slot, twelve bytes each; memories by slot, a bit for each condition.
pub const SLOTS: usize = 9072;

pub const ROWS: usize = 12144;
// Nodes of the tokens, then their last slots, as many as T each.
pub const NODES: usize = 18288;
