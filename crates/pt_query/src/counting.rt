// The number of residuals.
ghost use Rattle.std.specs.Prelude.{IfOk};
ghost use Rattle.pt_sets.specs.Costs.{SameResidual, CostIs};
ghost use Rattle.pt_handles.specs.Handles.{IsKnown, SetOfHandle};

use pt_handles::{Handle, expand};
use pt_store::Codes;
use pt_tables::NoMemory;
use std::alloc::Global;

/// How many residuals the set has, which are the states of its minimal automaton, those of an empty residual among them.
/// The time and memory of `expand`: linear in states times letters.
pub fn state_count<P: Codes>(alloc: Global, pass: &P, a: Handle) -> Result<u64, NoMemory>
    requires { IsKnown P.home (P.lists pass.now) a }
    ensures { IfOk result (CostIs (SameResidual a.tracks (SetOfHandle (P.lists pass.now) a)) a.tracks) }
{
    let (table, _start) = expand(alloc, pass, a)?;
    Ok(u64::from(table.states()))
}
