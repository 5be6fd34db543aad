//! The last results of operations, with their costs.
#![tactic(auto)]

mod answer;
mod memo;

pub use answer::Answer;
pub use memo::Memo;

#[cfg(test)]
mod tests;
