ghost use Rattle.std.specs.Prelude.{◌≡◌};

use pt_terms::meaning::Constant;
use std::marker::Model;

/// The constants that a command names, in order. A contract sees the list of them.
#[derive(Drop)]
pub struct Constants {
    items: Vec<Constant>,
}

impl Model for Constants {
    ghost use Rattle.std.specs.Prelude.{List};
    ghost use Rattle.pt_terms.specs.declared.meaning.Constant.{Constant};

    ghost Value = { List Constant };

    ghost view = { λ c. c.items.items };
}

impl Constants {
    /// The constants in the vector.
    pub fn new(items: Vec<Constant>) -> Constants
        ensures { result ≡ items.items }
    {
        Constants { items }
    }

    /// The constants as a slice.
    pub fn as_slice(&self) -> &[Constant]
        ensures { result.now ≡ self.now }
    {
        self.items.as_slice()
    }
}
