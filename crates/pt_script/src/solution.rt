ghost use Rattle.std.specs.Prelude.{◌≡◌};

use std::marker::Model;

/// The components of a vector. A contract sees the list of them.
#[derive(Drop)]
pub(crate) struct Components {
    items: Vec<i128>,
}

impl Model for Components {
    ghost use Rattle.std.specs.Prelude.{List, ℤ};

    ghost Value = { List ℤ };

    ghost view = { λ c. c.items.items };
}

impl Components {
    /// The components in the vector.
    pub(crate) fn new(items: Vec<i128>) -> Components
        ensures { result ≡ items.items }
    {
        Components { items }
    }

    /// The components as a slice.
    pub(crate) fn as_slice(&self) -> &[i128]
        ensures { result.now ≡ self.now }
    {
        self.items.as_slice()
    }
}

/// The least solution of a conjunction over its sorted variables, as `check-sat` finds it.
#[derive(Drop)]
pub(crate) enum LeastSolution {
    /// Its shortest word has at most 128 letters: each component fits 128 bits.
    Narrow(Components),
    /// Its shortest word has so many letters, more than 128.
    Wide { letters: u32 },
}
