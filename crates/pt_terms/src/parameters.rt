ghost use Rattle.std.specs.Prelude.{◌≡◌, ◌↔◌, [], length, IsTrue, IfOk};

use pt_formula::Var;
use std::alloc::{AllocError, Global};
use std::marker::Model;

/// The variables of a definition's parameters, in the order in which they are written. A contract sees the list of them.
#[derive(Drop)]
pub struct Parameters {
    items: Vec<Var>,
}

impl Model for Parameters {
    ghost use Rattle.std.specs.Prelude.{List, ℕ};

    ghost Value = { List ℕ };

    ghost view = { λ p. p.items.items };
}

impl Parameters {
    /// The variables in the vector.
    pub fn new(items: Vec<Var>) -> Parameters
        ensures { result ≡ items.items }
    {
        Parameters { items }
    }

    /// A copy of the variables in the slice.
    pub fn copy_of(alloc: Global, variables: &[Var]) -> Result<Parameters, AllocError>
        ensures { IfOk result (λ p. p ≡ variables.now) }
    {
        let items = Vec::from_slice(alloc, variables)?;
        Ok(Parameters { items })
    }

    /// How many there are.
    pub fn len(&self) -> usize
        ensures { result ≡ length self.now }
    {
        self.items.len()
    }

    /// Whether there are none.
    pub fn is_empty(&self) -> bool
        ensures { IsTrue result ↔ (self.now ≡ []) }
    {
        self.items.is_empty()
    }

    /// The variables as a slice.
    pub fn as_slice(&self) -> &[Var]
        ensures { result.now ≡ self.now }
    {
        self.items.as_slice()
    }
}
