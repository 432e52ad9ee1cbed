//! The lines of a list, and the words and numbers of a line.
#![tactic(auto)]

mod cut;
mod lines;
mod number;
mod word;

pub use lines::{LIMIT, Lines};
pub use word::{Cursor, Word};
