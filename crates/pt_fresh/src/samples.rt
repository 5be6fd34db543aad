// Formulas over small forms, and a plain evaluator of their nodes.
ghost use Rattle.std.specs.Prelude.{◌≡◌, ◌≢◌, IfOk, false, pos};
ghost use Rattle.pt_formula.specs.Sums.{IsForm};
ghost use Rattle.pt_fresh.specs.Sides.{names};

use crate::closing::is_free;
use crate::forms::form_of_number;
use crate::{Relation, TermFault, choice, compare, divide, divisible, magnitude, remainder};
use pt_formula::{Form, Formula, Kind, NoMemory, Node, NodeId, Position, Terms, Var};
use std::alloc::Global;

pub(crate) const HERE: Position = Position { line: 2, column: 7 };

// The values of variables 0, 1 and 2.
type Values = [i64; 3];

fn with(values: Values, v: Var, value: i64) -> Values {
    let mut changed = values;
    if let Some(slot) = changed.get_mut(v as usize) {
        *slot = value;
    }
    changed
}

fn sum(terms: &[(Var, i64)], values: Values) -> i128 {
    let mut total = 0i128;
    for term in terms {
        let value = values.get(term.0 as usize).copied().unwrap_or(0);
        total = total.wrapping_add(i128::from(term.1).wrapping_mul(i128::from(value)));
    }
    total
}

fn compares(kind: Kind, sum: i128, constant: i64) -> bool {
    let rest = sum.wrapping_sub(i128::from(constant));
    match kind {
        Kind::Eq => rest == 0,
        Kind::Le => rest <= 0,
        Kind::Mod(m) => m != 0 && rest.rem_euclid(i128::from(m)) == 0,
    }
}

// Whether a node holds, where the values of bound variables are sought from -12 to 12.
pub(crate) fn holds(formula: &Formula, id: NodeId, values: Values) -> bool {
    if id >= formula.len() {
        return false;
    }
    match formula.node(id) {
        Node::True => true,
        Node::False => false,
        Node::Atom {
            kind,
            terms,
            constant,
        } => compares(*kind, sum(terms.as_slice(), values), *constant),
        Node::Not(a) => *a < id && !holds(formula, *a, values),
        Node::And(a, b) => {
            *a < id && *b < id && holds(formula, *a, values) && holds(formula, *b, values)
        }
        Node::Or(a, b) => {
            *a < id && *b < id && (holds(formula, *a, values) || holds(formula, *b, values))
        }
        Node::Exists(v, a) => {
            for value in -12i64..13 {
                if *a < id && holds(formula, *a, with(values, *v, value)) {
                    return true;
                }
            }
            false
        }
        Node::Iff(_, _) => false,
        Node::Xor(_, _) => false,
    }
}

// Whether a node holds at one value of variable 1 alone, of those from -40 to 40.
pub(crate) fn is_only_at(formula: &Formula, id: NodeId, x: i64, wanted: i64) -> bool {
    for v in -40i64..41 {
        if holds(formula, id, [x, v, 0]) != (v == wanted) {
            return false;
        }
    }
    true
}

// A multiple of variable 0 and a constant.
pub(crate) fn form(alloc: Global, by: i64, constant: i64) -> Result<Form, NoMemory>
    requires { by ≢ pos 0 }
    ensures form { IfOk result IsForm }
    ensures other { IfOk result (λ f. names 1 f ≡ false) }
{
    let items = Vec::from_slice(alloc, &[(0, by)])?;
    Ok(Form {
        terms: Terms::new(items),
        constant,
    })
}

// Variable 1 is the quotient of a form of variable 0.
pub(crate) fn quotient(
    formula: &mut Formula,
    alloc: Global,
    by: i64,
    constant: i64,
    n: i64,
) -> Result<NodeId, TermFault> {
    if by == 0 || n == 0 {
        return Ok(0);
    }
    let a = form(alloc, by, constant)?;
    divide(formula, alloc, 1, &a, n, HERE)
}

// Variable 1 is the remainder of a form of variable 0.
pub(crate) fn rest(
    formula: &mut Formula,
    alloc: Global,
    by: i64,
    constant: i64,
    n: i64,
) -> Result<NodeId, TermFault> {
    if by == 0 || n == 0 {
        return Ok(0);
    }
    let a = form(alloc, by, constant)?;
    remainder(formula, alloc, 1, &a, n, HERE)
}

// Variable 1 is the absolute value of a form of variable 0.
pub(crate) fn absolute(
    formula: &mut Formula,
    alloc: Global,
    by: i64,
    constant: i64,
) -> Result<NodeId, TermFault> {
    if by == 0 {
        return Ok(0);
    }
    let a = form(alloc, by, constant)?;
    magnitude(formula, alloc, 1, &a, HERE)
}

// Variable 1 is x where a node holds, and else 3 - x; node 0 where that node is not there or has variable 1.
pub(crate) fn chosen(formula: &mut Formula, alloc: Global, c: NodeId) -> Result<NodeId, TermFault> {
    if c >= formula.len() {
        return Ok(0);
    }
    if is_free(formula, 1, c) {
        return Ok(0);
    }
    let a = form(alloc, 1, 0)?;
    let b = form(alloc, -1, 3)?;
    choice(formula, alloc, 1, c, &a, &b, HERE)
}

// How x and a constant compare with a number.
pub(crate) fn related(
    formula: &mut Formula,
    alloc: Global,
    relation: Relation,
    constant: i64,
    number: i64,
) -> Result<NodeId, TermFault> {
    let a = form(alloc, 1, constant)?;
    let b = form_of_number(alloc, number);
    compare(formula, alloc, relation, &a, &b, HERE)
}

// That a number from 1 to 9 divides x and a constant.
pub(crate) fn multiple(
    formula: &mut Formula,
    alloc: Global,
    n: u64,
    constant: i64,
) -> Result<NodeId, TermFault> {
    if n == 0 || n > 9 {
        return Ok(0);
    }
    let a = form(alloc, 1, constant)?;
    divisible(formula, alloc, n, &a, HERE)
}

// A node that is made here; an atom by its coefficients of variables 0 and 1, and its constant.
#[derive(Clone, Copy, Debug, PartialEq, Eq)]
pub(crate) enum Shape {
    Other,
    Atom(Kind, i64, i64, i64),
    Not(NodeId),
    And(NodeId, NodeId),
    Or(NodeId, NodeId),
    Exists(Var, NodeId),
}

fn coefficient(terms: &[(Var, i64)], v: Var) -> i64 {
    for term in terms {
        if term.0 == v {
            return term.1;
        }
    }
    0
}

pub(crate) fn shown(formula: &Formula, id: NodeId) -> Shape {
    if id >= formula.len() || formula.position(id) != HERE {
        return Shape::Other;
    }
    match formula.node(id) {
        Node::Atom {
            kind,
            terms,
            constant,
        } => {
            let terms = terms.as_slice();
            Shape::Atom(
                *kind,
                coefficient(terms, 0),
                coefficient(terms, 1),
                *constant,
            )
        }
        Node::Not(a) => Shape::Not(*a),
        Node::And(a, b) => Shape::And(*a, *b),
        Node::Or(a, b) => Shape::Or(*a, *b),
        Node::Exists(v, a) => Shape::Exists(*v, *a),
        _ => Shape::Other,
    }
}
