// The automaton of an atom.
ghost use Rattle.std.specs.Prelude.{◌≤◌, ◌^◌, IfOk, IfErr};
ghost use Rattle.pt_atoms.specs.Atoms.{IsNormal};
ghost use Rattle.pt_atoms.specs.Tables.{IsAtomTable, ResidualsWithin, ResidualsAre, IsCause};

use crate::Normal;
use crate::fault::AtomFault;
use crate::search::reach_all;
use pt_tables::Table;
use std::alloc::Global;

/// The automaton of the normal form's set: state 0 has the set, and the states have its residuals, each once, in the order in which they are
/// reached. The bound is from 1 to 65,536. Errors: `States` where the residuals are more than the bound, and want of memory. A residual is found by
/// its kind and constant in a hash index, so the time is a look-up for each state and letter, and the sums of the coefficients at the letters
/// once for each modulus; the search stops at the first residual past the bound. The memory is the table's and a parameter for each state.
/// Source: Boudet and Comon, Diophantine equations, Presburger arithmetic and finite automata.
pub fn atom_table(alloc: Global, normal: &Normal, bound: u32) -> Result<Table, AtomFault>
    requires normal_form { IsNormal normal.now }
    requires least { 1 ≤ bound }
    requires most { bound ≤ 2 ^ 16 }
    ensures table { IfOk result (λ a. IsAtomTable normal.now a) }
    ensures states { IfOk result (λ a. ResidualsAre normal.now a.states) }
    ensures within { IfOk result (λ a. ResidualsWithin normal.now bound) }
    ensures cause { IfErr result (IsCause normal.now bound) }
{
    let done = match reach_all(alloc, normal, bound) {
        Ok(done) => done,
        Err(fault) => return Err(fault),
    };
    let tracks = normal.coefficients.as_slice().len() as u32;
    let states = done.found.len() as u32;
    Ok(Table::from_parts(tracks, states, done.outputs, done.edges))
}
