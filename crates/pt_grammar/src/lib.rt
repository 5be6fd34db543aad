//! The grammar: words of the standard, parts of nested lists, and forms of binders, annotations and commands, without a meaning yet.
#![tactic(auto)]

pub mod exprs;
pub mod forms;
pub mod item_forms;
#[cfg(test)]
mod tests;
pub mod verbs;
pub mod words;
