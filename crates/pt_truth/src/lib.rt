//! Laws on the truth of formulas over the integers: it is decided, and each formula has finitely many residuals.
#![tactic(auto)]

pub mod laws;
#[cfg(test)]
mod tests;
