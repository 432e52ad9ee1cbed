//! The calls that the lines of a call list ask for.
#![tactic(auto)]

mod arguments;
mod call;
mod fault;
mod list;
mod read;

pub use call::Call;
pub use fault::{Fault, ReadError};
pub use list::{Line, read_list};
pub use read::read_call;
