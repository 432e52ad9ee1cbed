//! Examples for the readers of call lists.
#![tactic(auto)]

#[cfg(test)]
mod lines;
#[cfg(test)]
mod words;
