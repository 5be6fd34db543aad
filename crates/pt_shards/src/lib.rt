//! The list of the codes of one shard, with an index of their first positions.
#![tactic(auto)]

mod hashed;
mod indexed;
mod laws;
mod shard;

pub use hashed::HashedCode;
pub use laws::{agreeing_lists_begin_one_another, first_positions_stay};
pub use shard::{MAX_CODES, Shard};

#[cfg(test)]
mod tests;
