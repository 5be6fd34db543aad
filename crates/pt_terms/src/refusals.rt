// Refusals at a place.
ghost use Rattle.std.specs.Prelude.{◌≡◌};
ghost use Rattle.pt_terms.specs.Gives.{IsRefusalOf, IsFormRefusal};

use pt_formula::{FormFault, FormulaFault, Position};
use pt_syntax::{ReadKind, ReadRefusal, no_memory};

pub fn refused(kind: ReadKind, position: Position) -> ReadRefusal
    ensures { result ≡ record { kind = kind; position = position } }
{
    ReadRefusal { kind, position }
}

/// A builder's refusal, at the term.
pub(crate) fn builder_refusal(fault: FormulaFault, at: Position) -> ReadRefusal
    ensures { IsRefusalOf fault at result }
{
    match fault {
        FormulaFault::Tracks { position: _ } => refused(ReadKind::Tracks, at),
        FormulaFault::Nodes => refused(ReadKind::Nodes, at),
        FormulaFault::NoMemory => no_memory(),
    }
}

/// The refusal of a form, at the term.
pub(crate) fn form_refusal(fault: FormFault, at: Position) -> ReadRefusal
    ensures { IsFormRefusal fault at result }
{
    match fault {
        FormFault::Coefficient => refused(ReadKind::Coefficient, at),
        FormFault::Tracks => refused(ReadKind::Tracks, at),
        FormFault::NoMemory => no_memory(),
    }
}
