//! The script of mode drill, and what is written of its output.
#![tactic(auto)]

mod draws;
pub mod laws;
mod output;
mod script;
#[cfg(test)]
mod tests;

pub use output::{last_line, summary};
pub use script::drill_script;
