//! Streams of bytes whose faults are counted: what a source gives and what a sink takes is said
//! by ghost members, so that a program over any source and sink has a contract from bytes to bytes.
#![tactic(auto)]

mod calls;
mod fault;
mod memory;
mod real;
mod streams;
mod sure;
#[cfg(test)]
mod tests;
mod whole;

pub use fault::{Failed, NoMemory, ReadFault, WriteFault};
pub use memory::{MemSink, MemSource};
pub use real::{RealSink, RealSource};
pub use streams::{Sink, Source};
pub use sure::{SureSink, SureSource};
pub use whole::{read_all, write_all};
