//! Words in two's complement, least digits first, of vectors of 128-bit integers.
#![tactic(auto)]

mod fault;
mod vector;
mod word;

pub use fault::{DigitFault, NoMemory};
pub use word::{decode, encode, restrict};

#[cfg(test)]
mod tests;
