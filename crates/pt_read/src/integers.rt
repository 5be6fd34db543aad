ghost use Rattle.std.specs.Prelude.{◌≡◌};

use std::marker::Model;

/// The integers that a command names, in order. A contract sees the list of them.
#[derive(Drop)]
pub struct Integers {
    items: Vec<i128>,
}

impl Model for Integers {
    ghost use Rattle.std.specs.Prelude.{List, ℤ};

    ghost Value = { List ℤ };

    ghost view = { λ z. z.items.items };
}

impl Integers {
    /// The integers in the vector.
    pub fn new(items: Vec<i128>) -> Integers
        ensures { result ≡ items.items }
    {
        Integers { items }
    }

    /// The integers as a slice.
    pub fn as_slice(&self) -> &[i128]
        ensures { result.now ≡ self.now }
    {
        self.items.as_slice()
    }
}
