//! Text to commands: scope, elaboration, and a reader of one command after the other.
#![tactic(auto)]

mod command;
mod commands;
mod constants;
mod context;
mod declarations;
mod integers;
mod item_parts;
pub mod laws;
mod numerals;
mod predicates;
mod reader;
mod scope;
#[cfg(test)]
mod tests;

pub use command::{Command, CommandKind, Definition, Predicate};
pub use constants::Constants;
pub use integers::Integers;
pub use pt_digits::NoMemory;
pub use pt_syntax::{ReadKind, ReadRefusal};
pub use pt_terms::bytes::Bytes;
pub use pt_terms::meaning::{Constant, Meaning, Sort};
pub use pt_terms::parameters::Parameters;
pub use pt_terms::sorts::Sorts;
pub use reader::Reader;
pub use scope::Scope;
