//! A class table that keeps the answer of find del for each class, and works them out again at set del.
#![tactic(auto)]

mod settled;
mod table;

pub use table::SettledTable;
