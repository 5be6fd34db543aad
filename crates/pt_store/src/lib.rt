//! Stores that intern the codes of components.
#![tactic(auto)]

mod cell_passes;
mod fault;
mod laws;
mod local;
mod shared;
mod spread;
mod traits;

pub use fault::{JoinRefused, NoMemory, StoreFault};
pub use laws::{full_lists_stay_full, lists_are_joined_shard_by_shard};
pub use local::{LocalPass, LocalStore};
pub use pt_shards::MAX_CODES;
pub use shared::{SharedPass, SharedStore};
pub use spread::{Mixed, OneShard};
pub use traits::{Codes, Interner, Sharing, Spread};

#[cfg(test)]
mod shared_tests;
#[cfg(test)]
mod tests;
