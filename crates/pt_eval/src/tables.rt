// The automata of the solutions of nodes.
ghost use Rattle.std.specs.Prelude.{◌≡◌, ◌<◌, ◌≤◌, length, map, IfOk, IfErr};
ghost use Rattle.pt_sets.specs.Automata.{IsReduced};
ghost use Rattle.pt_atoms.specs.Atoms.{IsNormal, IsModulus};
ghost use Rattle.pt_atoms.specs.Tables.{IsAtomTable, ResidualsWithin, ResidualsAbove};
ghost use Rattle.pt_formula.specs.Forms.{AreTerms};
ghost use Rattle.pt_formula.specs.Truth.{Atom as AtomTree, Exists as ExistsTree};
ghost use Rattle.pt_formula.specs.Formulas.{node_at, op_node, tree_of, variables_of};
ghost use Rattle.pt_formula.specs.Costs.{track_of};
ghost use Rattle.pt_eval.specs.Evaluating.{HasSolutions};
ghost use Rattle.pt_eval.specs.Parts.{IsTableOf, RefusesTree, RefusesForm, truth_tree};

use crate::tracks::{track, track_map};
use pt_atoms::form::normal;
use pt_atoms::{Atom, AtomFault, Coefficients, Kind, Normal, NormalKind, atom_table};
use pt_formula::laws::{
    solutions_of_an_atom_are_its_set, trees_are_made_of_those_of_the_children,
    truth_depends_on_free_variables_alone, widening_puts_no_condition_on_added_variables,
};
use pt_formula::{Formula, NodeId, Op, Var};
use pt_handles::{Handle, TableFault};
use pt_product::combine_table;
use pt_project::exists_table;
use pt_store::Codes;
use pt_tables::{NoMemory, Table};
use std::alloc::Global;

/// The automaton of a normal form.
fn form_table(alloc: Global, form: &Normal, bound: u32) -> Result<Table, TableFault>
    requires form { IsNormal form.now }
    requires some { 0 < bound }
    requires few { bound ≤ 65536 }
    ensures table { IfOk result (λ table. IsAtomTable form.now table) }
    ensures few { IfOk result (λ table. table.states ≤ bound) }
    ensures reduced { IfOk result IsReduced }
    ensures within { IfOk result (λ table. ResidualsWithin form.now bound) }
    ensures above { IfErr result (RefusesForm form.now bound) }
{
    match atom_table(alloc, form, bound) {
        Ok(table) => Ok(table),
        Err(AtomFault::States { bound: over }) => Err(TableFault::States { bound: over }),
        Err(AtomFault::NoMemory) => Err(TableFault::NoMemory),
    }
}

/// The automaton of the solutions of True or False: a normal form without tracks.
pub(crate) fn truth_solutions(alloc: Global, value: bool, bound: u32) -> Result<Table, TableFault>
    requires some { 0 < bound }
    requires few { bound ≤ 65536 }
    ensures ok { IfOk result (λ table. IsTableOf (truth_tree value) bound table) }
    ensures reduced { IfOk result IsReduced }
    ensures err { IfErr result (RefusesTree (truth_tree value) bound) }
{
    let form = Normal {
        kind: NormalKind::Always(value),
        coefficients: Coefficients::new(Vec::new(alloc)),
        constant: 0,
    };
    form_table(alloc, &form, bound)
}

/// The coefficients of the terms.
fn coefficients_of(alloc: Global, terms: &[(Var, i64)]) -> Result<Coefficients, NoMemory>
    ensures { IfOk result (λ c. c ≡ map (λ t. t.1) terms.now) }
{
    let mut items = Vec::new(alloc);
    for (_, coefficient) in terms {
        items.push(*coefficient)?;
    }
    Ok(Coefficients::new(items))
}

/// The automaton of the solutions of an atom, one track for each term.
pub(crate) fn atom_solutions(
    alloc: Global,
    kind: Kind,
    terms: &[(Var, i64)],
    constant: i64,
    bound: u32,
) -> Result<Table, TableFault>
    requires terms { AreTerms terms.now }
    requires tracks { length terms.now ≤ 10 }
    requires modulus { IsModulus kind }
    requires some { 0 < bound }
    requires few { bound ≤ 65536 }
    ensures ok { IfOk result (λ table. IsTableOf (AtomTree kind terms.now constant) bound table) }
    ensures reduced { IfOk result IsReduced }
    ensures err { IfErr result (RefusesTree (AtomTree kind terms.now constant) bound) }
{
    solutions_of_an_atom_are_its_set();
    let coefficients = coefficients_of(alloc, terms)?;
    let atom = Atom {
        kind,
        coefficients,
        constant,
    };
    let form = normal(alloc, &atom)?;
    form_table(alloc, &form, bound)
}

/// The automaton of the solutions of a node of two children, from handles of theirs: a search over pairs.
pub(crate) fn binary_solutions<P: Codes>(
    alloc: Global,
    pass: &P,
    formula: &Formula,
    id: NodeId,
    op: Op,
    a: NodeId,
    b: NodeId,
    left: Handle,
    right: Handle,
    bound: u32,
) -> Result<Table, TableFault>
    requires id { id < length formula.now }
    requires node { node_at formula.now id ≡ op_node op a b }
    requires a { a < length formula.now }
    requires b { b < length formula.now }
    requires left { HasSolutions P.home (P.lists pass.now) formula.now a left }
    requires right { HasSolutions P.home (P.lists pass.now) formula.now b right }
    requires some { 0 < bound }
    requires few { bound ≤ 65536 }
    ensures ok { IfOk result (λ table. IsTableOf (tree_of formula.now id) bound table) }
    ensures err { IfErr result (RefusesTree (tree_of formula.now id) bound) }
{
    trees_are_made_of_those_of_the_children();
    widening_puts_no_condition_on_added_variables();
    formula.is_formula();
    let variables = formula.variables(id);
    let variables_a = formula.variables(a);
    let variables_b = formula.variables(b);
    let map_a = track_map(alloc, variables_a, variables)?;
    let map_b = track_map(alloc, variables_b, variables)?;
    let tracks = variables.len() as u32;
    combine_table(alloc, pass, op, left, &map_a, right, &map_b, tracks, bound)
}

/// The automaton of the solutions of a quantifier over a free variable of its body, from a handle of the body's.
pub(crate) fn exists_solutions<P: Codes>(
    alloc: Global,
    pass: &P,
    formula: &Formula,
    v: Var,
    a: NodeId,
    body: Handle,
    bound: u32,
) -> Result<Table, TableFault>
    requires a { a < length formula.now }
    requires free { track_of v (variables_of formula.now a) < length (variables_of formula.now a) }
    requires body { HasSolutions P.home (P.lists pass.now) formula.now a body }
    requires some { 0 < bound }
    requires few { bound ≤ 65536 }
    ensures ok { IfOk result (λ table. IsTableOf (ExistsTree v (tree_of formula.now a)) bound table) }
    ensures err { IfErr result (RefusesTree (ExistsTree v (tree_of formula.now a)) bound) }
{
    truth_depends_on_free_variables_alone();
    let dropped = track(v, formula.variables(a)) as u32;
    exists_table(alloc, pass, body, dropped, bound)
}
