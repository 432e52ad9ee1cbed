//! Lists of questions and set dels put to a class table: what it answers follows from its rows alone.
#![tactic(auto)]

mod asking;
mod lists;

pub use asking::{Answer, Request, ask};
pub use lists::{answer_alike, ask_all};
