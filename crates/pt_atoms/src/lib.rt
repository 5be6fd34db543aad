//! Atoms: linear equations, inequalities and congruences over integer vectors, their normal forms, residuals and automata.
#![tactic(auto)]

mod coefficients;
mod fault;
pub mod form;
pub mod laws;
mod numbers;
mod parameter;
mod residuals;
mod search;
mod table;

pub use coefficients::Coefficients;
pub use fault::AtomFault;
pub use pt_digits::NoMemory;
pub use residuals::{meets, residual};
pub use table::atom_table;

#[cfg(test)]
mod tests;

/// How the sum of an atom and its constant compare.
#[derive(Clone, Copy, Debug, PartialEq, Eq)]
pub enum Kind {
    Eq,
    Le,
    /// Congruent modulo a number, which every call asks to be from 1 to `2^63 - 1`.
    Mod(u64),
}

/// `a . x = c`, `a . x <= c`, or `a . x` and `c` congruent modulo a number. There is one coefficient for each track; every call asks for
/// at most 10.
#[derive(Drop)]
pub struct Atom {
    pub kind: Kind,
    pub coefficients: Coefficients,
    pub constant: i64,
}

/// The kind of a normal form. `Always(true)` is the set of all vectors, and `Always(false)` the empty set.
#[derive(Clone, Copy, Debug, PartialEq, Eq, Hash)]
pub enum NormalKind {
    Always(bool),
    Eq,
    Le,
    /// Congruent modulo a number from 2 to `2^63 - 1`.
    Mod(u64),
}

/// A normal form of an atom, with one coefficient for each track, zeros kept. The coefficients of an equation or inequality have no common
/// divisor; those of a congruence are residues that have none with the modulus, and its constant is a residue; at `Always` all numbers are 0.
/// The constant is at most `2^67` in size. It is plain data: that it is a normal form is a condition of the calls that take it.
#[derive(Drop)]
pub struct Normal {
    pub kind: NormalKind,
    pub coefficients: Coefficients,
    pub constant: i128,
}
