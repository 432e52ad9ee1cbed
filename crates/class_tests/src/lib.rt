//! Examples for class tables.
#![tactic(auto)]

#[cfg(test)]
mod alike;
#[cfg(test)]
mod building;
#[cfg(test)]
mod good;
#[cfg(test)]
mod questions;
#[cfg(test)]
mod rows;
