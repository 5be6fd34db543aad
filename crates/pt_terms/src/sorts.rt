ghost use Rattle.std.specs.Prelude.{◌≡◌, length, IfOk};
ghost use Rattle.pt_terms.specs.Sorts.{same_sorts};

use crate::meaning::Sort;
use std::alloc::{AllocError, Global};
use std::marker::Model;

/// The sorts of a definition's parameters, in the order in which they are written. A contract sees the list of them.
#[derive(Drop)]
pub struct Sorts {
    items: Vec<Sort>,
}

impl Model for Sorts {
    ghost use Rattle.std.specs.Prelude.{List};
    ghost use Rattle.pt_terms.specs.declared.meaning.Sort.{Sort};

    ghost Value = { List Sort };

    ghost view = { λ s. s.items.items };
}

impl Sorts {
    /// The sorts in the vector.
    pub fn new(items: Vec<Sort>) -> Sorts
        ensures { result ≡ items.items }
    {
        Sorts { items }
    }

    /// A copy of the sorts in the slice.
    pub fn copy_of(alloc: Global, sorts: &[Sort]) -> Result<Sorts, AllocError>
        ensures { IfOk result (λ s. s ≡ sorts.now) }
    {
        let items = Vec::from_slice(alloc, sorts)?;
        Ok(Sorts { items })
    }

    /// The sorts as a slice.
    pub fn as_slice(&self) -> &[Sort]
        ensures { result.now ≡ self.now }
    {
        self.items.as_slice()
    }
}
