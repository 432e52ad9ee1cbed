//! A layer over any class table that remembers answers of find del.
#![tactic(auto)]

mod answers;
mod layer;

pub use layer::Remembering;
