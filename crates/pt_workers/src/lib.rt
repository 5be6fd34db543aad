//! Work that is dealt to several workers, each with a pass of its own over one store.
#![tactic(auto)]

mod deal;
mod hands;
mod join;
mod sharing;
mod work;

pub use sharing::share;
pub use work::Work;

#[cfg(test)]
mod tests;
