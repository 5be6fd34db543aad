//! Scripts from bytes to bytes.
#![tactic(auto)]

mod drilling;
pub mod laws;
mod memory;
mod script;
mod status;
#[cfg(test)]
mod tests;

pub use script::run;
pub use status::Status;
