//! Queries on sets: emptiness, membership, inclusion, finiteness, the number of residuals, and members in shortlex order.
#![tactic(auto)]

mod counting;
mod digits;
mod fault;
mod finiteness;
mod inclusion;
mod laws;
mod listing;
mod membership;
mod ordered;
mod walking;
mod wide;
mod witness;

pub use counting::state_count;
pub use fault::WitnessFault;
pub use finiteness::is_finite;
pub use inclusion::is_subset;
pub use laws::{comparisons_tell_of_sets_alone, queries_tell_of_sets_alone};
pub use listing::list;
pub use membership::{contains, is_empty};
pub use pt_handles::TableFault;
pub use pt_tables::NoMemory;
pub use witness::least_member;

#[cfg(test)]
mod law_tests;
#[cfg(test)]
mod tests;
