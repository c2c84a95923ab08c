// The writer of rule books: rows of numbers and wordings to the bytes of a book, and back. Its two calls are `write::write_book` and `read::read_rows`.
#![tactic(auto)]

mod field;
mod layout;
pub mod read;
mod rows;
pub mod write;
