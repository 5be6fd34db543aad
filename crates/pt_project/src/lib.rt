//! Projection of sets, with exact costs.
#![tactic(auto)]

mod bits;
mod caching;
mod closing;
mod families;
mod family;
mod laws;
mod projecting;
mod search;
mod sources;

pub use caching::{ExistsMemo, Projection, exists_cached};
pub use laws::{
    family_costs_exclude_each_other, good_answers_stay_good, sign_closures_are_projections,
};
pub use projecting::{exists, exists_table};

#[cfg(test)]
mod tests;
