//! Automata as tables that keep the sign rule, and their builder.
#![tactic(auto)]

mod builder;
mod digits;
mod fault;
mod table;

pub use builder::Builder;
pub use fault::BuildFault;
pub use pt_digits::NoMemory;
pub use table::Table;

#[cfg(test)]
mod tests;
