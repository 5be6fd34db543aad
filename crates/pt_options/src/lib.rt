//! The options that the words behind the program's name give.
#![tactic(auto)]

mod checks;
mod given;
mod line;
mod shape;
#[cfg(test)]
mod tests;
pub mod words;

pub use given::{Mode, Options, WordsFault};
