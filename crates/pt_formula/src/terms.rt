ghost use Rattle.std.specs.Prelude.{◌≡◌, length, IfOk};

use crate::Var;
use pt_digits::NoMemory;
use std::alloc::Global;
use std::marker::Model;

/// Variables with their coefficients. A contract sees the list of the pairs.
#[derive(Drop)]
pub struct Terms {
    items: Vec<(Var, i64)>,
}

impl Model for Terms {
    ghost use Rattle.std.specs.Prelude.{List, ℕ, ℤ};

    ghost Value = { List (ℕ × ℤ) };

    ghost view = { λ t. t.items.items };
}

impl Terms {
    /// The terms in the vector.
    pub fn new(items: Vec<(Var, i64)>) -> Terms
        ensures { result ≡ items.items }
    {
        Terms { items }
    }

    /// The terms as a slice.
    pub fn as_slice(&self) -> &[(Var, i64)]
        ensures { result.now ≡ self.now }
    {
        self.items.as_slice()
    }

    /// A copy of the terms in the slice.
    pub(crate) fn copy_of(alloc: Global, terms: &[(Var, i64)]) -> Result<Terms, NoMemory>
        ensures { IfOk result (λ t. t ≡ terms.now) }
    {
        let items = Vec::from_slice(alloc, terms)?;
        Ok(Terms::new(items))
    }
}
