//! Shards of set-once cells, and passes that note what they saw in them.
#![tactic(auto)]

mod laws;
mod noted;
mod segment;
mod segments;
mod shard;
mod slot;
mod walked;

pub use laws::segments_have_all_cells;
pub use shard::{CellFault, CellPass, CellShard};

#[cfg(test)]
mod tests;
