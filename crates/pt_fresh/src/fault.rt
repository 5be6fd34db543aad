ghost use Rattle.std.specs.Prelude.{◌≡◌};
ghost use Rattle.pt_fresh.specs.declared.fault.TermFault.TheVariants as term_fault;
ghost use Rattle.pt_fresh.specs.Making.{fault_of};
ghost use Rattle.pt_fresh.specs.Outcomes.{form_refusal};

use pt_formula::{FormFault, FormulaFault, NoMemory, Position};
use std::alloc::AllocFailed;

/// Why the nodes of a term were not all made. The formula may have some of them; its earlier nodes are as before.
#[derive(Clone, Copy, Debug, PartialEq, Eq)]
pub enum TermFault {
    /// A number of a form or an atom does not fit 64 bits.
    Coefficient,
    /// A form or a node would have more than `MAX_TRACKS` variables; the position of the nodes.
    Tracks { position: Position },
    /// A node is needed, and `MAX_NODES` are there.
    Nodes,
    NoMemory,
}

impl From<NoMemory> for TermFault {
    ghost from_gives = { λ _ fault. fault ≡ term_fault.NoMemory };

    fn from(_error: NoMemory) -> Self {
        TermFault::NoMemory
    }
}

impl<T: Drop> From<AllocFailed<T>> for TermFault {
    ghost from_gives = { λ _ fault. fault ≡ term_fault.NoMemory };

    fn from(_failed: AllocFailed<T>) -> Self {
        TermFault::NoMemory
    }
}

/// A builder's refusal.
pub(crate) fn of_builder(fault: FormulaFault) -> TermFault
    ensures { result ≡ fault_of fault }
{
    match fault {
        FormulaFault::Tracks { position } => TermFault::Tracks { position },
        FormulaFault::Nodes => TermFault::Nodes,
        FormulaFault::NoMemory => TermFault::NoMemory,
    }
}

/// The refusal of a form for nodes at a position.
pub(crate) fn of_form(fault: FormFault, at: Position) -> TermFault
    ensures { result ≡ form_refusal fault at }
{
    match fault {
        FormFault::Coefficient => TermFault::Coefficient,
        FormFault::Tracks => TermFault::Tracks { position: at },
        FormFault::NoMemory => TermFault::NoMemory,
    }
}
