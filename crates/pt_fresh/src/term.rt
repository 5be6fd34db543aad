ghost use Rattle.std.specs.Prelude.{◌≡◌};

use pt_formula::{Form, NodeId, Var};
use std::marker::Model;

/// Fresh variables in increasing order, each with the node that defines it. A contract sees the list of the pairs.
#[derive(Drop)]
pub struct Side {
    items: Vec<(Var, NodeId)>,
}

impl Model for Side {
    ghost use Rattle.std.specs.Prelude.{List, ℕ};

    ghost Value = { List (ℕ × ℕ) };

    ghost view = { λ s. s.items.items };
}

impl Side {
    /// The pairs in the vector.
    pub fn new(items: Vec<(Var, NodeId)>) -> Side
        ensures { result ≡ items.items }
    {
        Side { items }
    }

    /// The pairs as a slice.
    pub fn as_slice(&self) -> &[(Var, NodeId)]
        ensures { result.now ≡ self.now }
    {
        self.items.as_slice()
    }
}

/// A term of integers: a linear form, some of whose variables are fixed by definitions. A definition has, for all values of the other
/// variables, exactly one value of its variable at which it holds, and no later variable of the list is free in it. It is plain data: that it
/// is a term of a formula is a condition of the calls that take it.
#[derive(Drop)]
pub struct Term {
    pub form: Form,
    pub side: Side,
}
