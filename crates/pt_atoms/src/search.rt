// The search for the forms that a normal form leads to.
ghost use Rattle.std.specs.Prelude.{◌≡◌, ◌<◌, ◌≤◌, ◌+◌, ◌*◌, ◌^◌, length, [], ◌∷◌, IfOk, IfErr, OnOk, slice_index_or, map, pos, unsigned_abs, ℕ};
ghost use Rattle.pt_atoms.specs.Numbers.{IsConstant};
ghost use Rattle.pt_atoms.specs.Atoms.{IsNormal, HasModulus};
ghost use Rattle.pt_atoms.specs.Parameters.{coefficients_at, form_at, parameter_of};
ghost use Rattle.pt_atoms.specs.Searches.{IsAdded, IsFull, AreSums, IsRowOfOutputs, IsRowOfEdges, IsReachedParameter, IsSearch};
ghost use Rattle.pt_atoms.specs.Tables.{AreReached, IsCause};

use crate::fault::AtomFault;
use crate::numbers::digit_sum;
use crate::parameter::{Parameter, coefficients_of, step};
use crate::residuals::holds_at;
use crate::{Normal, NormalKind};
use indexmap::IndexSet;
use pt_digits::NoMemory;
use std::alloc::Global;

/// The number of letters of so many tracks.
pub fn letters_of(tracks: usize) -> u32
    requires { tracks ≤ 10 }
    ensures { result ≡ 2 ^ tracks }
{
    1u32 << tracks
}

/// The sums of the coefficients at the digits of each letter.
fn sums_of(alloc: Global, coefficients: &[i64]) -> Result<Vec<i128>, NoMemory>
    requires { length coefficients.now ≤ 10 }
    ensures { IfOk result (λ v. AreSums coefficients.now v.items) }
{
    let mut sums = Vec::new(alloc);
    for letter in 0..letters_of(coefficients.len()) {
        sums.push(digit_sum(coefficients, letter as u16))?;
    }
    Ok(sums)
}

/// The sums that the forms of one kind have at the letters.
#[derive(Drop)]
pub struct Sums {
    pub kind: NormalKind,
    pub values: Vec<i128>,
}

/// The sums for the forms of a kind, with the coefficients of the first form.
fn sums_for(alloc: Global, coefficients: &[i64], kind: NormalKind) -> Result<Sums, NoMemory>
    requires few { length coefficients.now ≤ 10 }
    requires modulus { HasModulus kind }
    ensures kind { IfOk result (λ s. s.kind ≡ kind) }
    ensures sums { IfOk result (λ s. AreSums (coefficients_at kind coefficients.now) s.values.items) }
{
    let own = coefficients_of(alloc, coefficients, kind)?;
    let values = sums_of(alloc, own.as_slice())?;
    Ok(Sums { kind, values })
}

/// Makes the sums those for a kind. They stay where they are that already.
fn refresh(
    alloc: Global,
    coefficients: &[i64],
    kind: NormalKind,
    sums: &mut Sums,
) -> Result<(), NoMemory>
    requires few { length coefficients.now ≤ 10 }
    requires modulus { HasModulus kind }
    requires sums { AreSums (coefficients_at sums.old.kind coefficients.now) sums.old.values.items }
    ensures kind { OnOk result (sums.new.kind ≡ kind) }
    ensures sums { OnOk result (AreSums (coefficients_at kind coefficients.now) sums.new.values.items) }
{
    if sums.kind == kind {
        return Ok(());
    }
    *sums = sums_for(alloc, coefficients, kind)?;
    Ok(())
}

/// The place of the parameter, which is added where it was not there.
fn add(found: &mut IndexSet<Parameter>, parameter: Parameter, bound: u32) -> Result<u32, AtomFault>
    requires { length found.old.keys ≤ bound }
    ensures added { IfOk result (λ i. IsAdded parameter found.old.keys found.new.keys i) }
    ensures within { OnOk result (length found.new.keys ≤ bound) }
    ensures full { IfErr result (IsFull parameter found.old.keys bound) }
{
    let (place, _) = found.insert_full(parameter)?;
    if bound as usize <= place {
        return Err(AtomFault::States { bound });
    }
    Ok(place as u32)
}

/// Adds the outputs of the state with a parameter, by sign.
fn add_outputs(outputs: &mut Vec<bool>, parameter: Parameter, sums: &[i128]) -> Result<(), NoMemory>
    requires modulus { HasModulus parameter.kind }
    requires constant { IsConstant parameter.constant }
    requires small { (d : ℕ) → d < length sums.now → unsigned_abs (slice_index_or sums.now d (pos 0)) ≤ 10 * 2 ^ 63 }
    ensures { OnOk result (IsRowOfOutputs parameter sums.now outputs.old.items outputs.new.items (length sums.now)) }
{
    for sum in sums {
        outputs.push(holds_at(parameter.kind, -*sum, parameter.constant))?;
    }
    Ok(())
}

/// Adds the edges of the state with a parameter, by letter, and the parameters that they lead to.
fn add_edges(
    normal: &Normal,
    found: &mut IndexSet<Parameter>,
    edges: &mut Vec<u32>,
    parameter: Parameter,
    sums: &[i128],
    bound: u32,
) -> Result<(), AtomFault>
    requires normal_form { IsNormal normal.now }
    requires reached { AreReached normal.now (map (form_at normal.now.coefficients) found.old.keys) }
    requires room { length found.old.keys ≤ bound }
    requires parameter { IsReachedParameter normal.now parameter }
    requires modulus { HasModulus parameter.kind }
    requires constant { IsConstant parameter.constant }
    requires sums { AreSums (coefficients_at parameter.kind normal.now.coefficients) sums.now }
    ensures reached { OnOk result (AreReached normal.now (map (form_at normal.now.coefficients) found.new.keys)) }
    ensures room { OnOk result (length found.new.keys ≤ bound) }
    ensures row { OnOk result (IsRowOfEdges normal.now parameter found.old.keys found.new.keys edges.old.items edges.new.items (2 ^ length normal.now.coefficients)) }
    ensures cause { IfErr result (IsCause normal.now bound) }
{
    for letter in 0..letters_of(normal.coefficients.as_slice().len()) {
        let next = step(parameter.kind, parameter.constant - sums[letter as usize]);
        let place = match add(found, next, bound) {
            Ok(place) => place,
            Err(fault) => return Err(fault),
        };
        edges.push(place)?;
    }
    Ok(())
}

/// The parameters that are found, in the order in which they are reached, with the outputs and edges of those that are done, in rows of a
/// cell a letter.
#[derive(Drop)]
pub struct Search {
    sums: Sums,
    pub found: IndexSet<Parameter>,
    pub edges: Vec<u32>,
    pub outputs: Vec<bool>,
}

/// Adds the outputs and edges of the state at place q, and the parameters that they lead to.
fn add_row(
    alloc: Global,
    normal: &Normal,
    search: &mut Search,
    q: usize,
    bound: u32,
) -> Result<(), AtomFault>
    requires normal_form { IsNormal normal.now }
    requires place { q < length search.old.found.keys }
    requires sums { AreSums (coefficients_at search.old.sums.kind normal.now.coefficients) search.old.sums.values.items }
    requires done { IsSearch normal.now bound q search.old.found.keys search.old.edges.items search.old.outputs.items }
    ensures sums { OnOk result (AreSums (coefficients_at search.new.sums.kind normal.now.coefficients) search.new.sums.values.items) }
    ensures longer { OnOk result (q < length search.new.found.keys) }
    ensures done { OnOk result (IsSearch normal.now bound (q + 1) search.new.found.keys search.new.edges.items search.new.outputs.items) }
    ensures cause { IfErr result (IsCause normal.now bound) }
{
    let parameter = search.found[q];
    let coefficients = normal.coefficients.as_slice();
    refresh(alloc, coefficients, parameter.kind, &mut search.sums)?;
    let sums = search.sums.values.as_slice();
    add_outputs(&mut search.outputs, parameter, sums)?;
    add_edges(
        normal,
        &mut search.found,
        &mut search.edges,
        parameter,
        sums,
        bound,
    )
}

/// The search before its first state is done.
fn start(alloc: Global, normal: &Normal) -> Result<Search, NoMemory>
    requires { IsNormal normal.now }
    ensures found { IfOk result (λ s. s.found.keys ≡ parameter_of normal.now ∷ []) }
    ensures edges { IfOk result (λ s. s.edges.items ≡ []) }
    ensures outputs { IfOk result (λ s. s.outputs.items ≡ []) }
    ensures sums { IfOk result (λ s. AreSums (coefficients_at s.sums.kind normal.now.coefficients) s.sums.values.items) }
{
    let sums = sums_for(alloc, normal.coefficients.as_slice(), normal.kind)?;
    let mut found = IndexSet::new(alloc);
    found.insert(Parameter {
        kind: normal.kind,
        constant: normal.constant,
    })?;
    Ok(Search {
        sums,
        found,
        edges: Vec::new(alloc),
        outputs: Vec::new(alloc),
    })
}

/// All parameters that the normal form reaches, with their outputs and edges, or where they are more than the bound the refusal.
pub fn reach_all(alloc: Global, normal: &Normal, bound: u32) -> Result<Search, AtomFault>
    requires normal_form { IsNormal normal.now }
    requires least { 1 ≤ bound }
    ensures done { IfOk result (λ s. IsSearch normal.now bound (length s.found.keys) s.found.keys s.edges.items s.outputs.items) }
    ensures cause { IfErr result (IsCause normal.now bound) }
{
    let mut search = start(alloc, normal)?;
    let mut q = 0;
    'rows: while q < search.found.len() {
        match add_row(alloc, normal, &mut search, q, bound) {
            Ok(()) => q += 1,
            Err(fault) => return Err(fault),
        }
    }
    Ok(search)
}
