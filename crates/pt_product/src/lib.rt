//! Boolean operations on sets, with exact costs.
#![tactic(auto)]

mod caching;
mod combination;
mod combining;
mod factor;
mod laws;
mod pair;
mod search;
mod side;
mod unary;

pub use caching::{CombineMemo, combine_cached};
pub use combination::Combination;
pub use combining::{combine, combine_table};
pub use laws::{good_answers_stay_good, pair_costs_exclude_each_other};
pub use pt_formula::Op;
pub use unary::{complement, widen};

#[cfg(test)]
mod tests;
