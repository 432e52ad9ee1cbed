//! The rows that class tables are built of, and a table that goes through them at each question.
#![tactic(auto)]

mod ancestors;
mod row;
mod table;
mod types;

pub use types::{Ancestors, ClassRow, SearchingTable};
