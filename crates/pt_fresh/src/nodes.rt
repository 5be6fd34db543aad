// One node more: the builders of a formula, with the refusals of terms.
ghost use Rattle.std.specs.Prelude.{◌≡◌, ◌<◌, length, IfOk};
ghost use Rattle.pt_atoms.specs.Atoms.{IsModulus};
ghost use Rattle.pt_formula.specs.declared.node.Node.TheVariants as node;
ghost use Rattle.pt_formula.specs.Forms.{AreTerms};
ghost use Rattle.pt_formula.specs.Formulas.{truth_node, op_node};
ghost use Rattle.pt_fresh.specs.Making.{make, make_exists};
ghost use Rattle.pt_fresh.specs.Outcomes.{Makes, Grows};

use crate::fault::{TermFault, of_builder};
use pt_formula::{Formula, Kind, NodeId, Op, Position, Var};
use std::alloc::Global;

/// A node True or False.
pub fn truth(
    formula: &mut Formula,
    alloc: Global,
    value: bool,
    at: Position,
) -> Result<NodeId, TermFault>
    ensures makes { Makes result formula.old formula.new (make (truth_node value) at) }
    ensures grows { Grows formula.old formula.new }
    ensures range { IfOk result (λ i. i < length formula.new) }
{
    match formula.truth(alloc, value, at) {
        Ok(id) => Ok(id),
        Err(fault) => Err(of_builder(fault)),
    }
}

/// The node of an atom with at least one term.
pub fn atom(
    formula: &mut Formula,
    alloc: Global,
    kind: Kind,
    terms: &[(Var, i64)],
    constant: i64,
    at: Position,
) -> Result<NodeId, TermFault>
    requires some { 0 < length terms.now }
    requires terms { AreTerms terms.now }
    requires kind { IsModulus kind }
    ensures makes { Makes result formula.old formula.new (make (node.Atom kind terms.now constant) at) }
    ensures grows { Grows formula.old formula.new }
    ensures range { IfOk result (λ i. i < length formula.new) }
{
    match formula.atom(alloc, kind, terms, constant, at) {
        Ok(id) => Ok(id),
        Err(fault) => Err(of_builder(fault)),
    }
}

/// The negation of a node.
pub fn not(
    formula: &mut Formula,
    alloc: Global,
    a: NodeId,
    at: Position,
) -> Result<NodeId, TermFault>
    requires { a < length formula.old }
    ensures makes { Makes result formula.old formula.new (make (node.Not a) at) }
    ensures grows { Grows formula.old formula.new }
    ensures range { IfOk result (λ i. i < length formula.new) }
{
    match formula.not(alloc, a, at) {
        Ok(id) => Ok(id),
        Err(fault) => Err(of_builder(fault)),
    }
}

/// Two nodes joined by an operation.
pub fn join(
    formula: &mut Formula,
    alloc: Global,
    op: Op,
    a: NodeId,
    b: NodeId,
    at: Position,
) -> Result<NodeId, TermFault>
    requires a { a < length formula.old }
    requires b { b < length formula.old }
    ensures makes { Makes result formula.old formula.new (make (op_node op a b) at) }
    ensures grows { Grows formula.old formula.new }
    ensures range { IfOk result (λ i. i < length formula.new) }
{
    match formula.binary(alloc, op, a, b, at) {
        Ok(id) => Ok(id),
        Err(fault) => Err(of_builder(fault)),
    }
}

/// A quantifier over a variable; the node itself where the variable is not free in it.
pub fn exists(
    formula: &mut Formula,
    alloc: Global,
    v: Var,
    a: NodeId,
    at: Position,
) -> Result<NodeId, TermFault>
    requires { a < length formula.old }
    ensures makes { Makes result formula.old formula.new (make_exists v a at) }
    ensures grows { Grows formula.old formula.new }
    ensures range { IfOk result (λ i. i < length formula.new) }
{
    match formula.exists(alloc, v, a, at) {
        Ok(id) => Ok(id),
        Err(fault) => Err(of_builder(fault)),
    }
}
