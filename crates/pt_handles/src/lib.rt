//! Handles of sets over a store.
#![tactic(auto)]

mod adoption;
mod compare;
mod expansion;
mod exploring;
mod fault;
mod finding;
mod handle;
mod knowing;
mod laws;
mod pieces;
mod reaching;
mod reads;

pub use adoption::{adopt, adopt_reduced};
pub use compare::same;
pub use expansion::expand;
pub use fault::{OpFault, TableFault};
pub use handle::Handle;
pub use knowing::knows;
pub use laws::{
    equal_sets_are_equal_handles, full_lists_lack, interned_components_are_known,
    joined_lists_know, known_sets_have_few_residuals, longer_lists_know, longer_lists_lack,
    reached_handles_are_residuals,
};
pub use reads::{output, step};

#[cfg(test)]
mod shared_tests;
#[cfg(test)]
mod tests;
