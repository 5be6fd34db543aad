// Refusals of the builders, and the variables and positions of what they make.
use crate::{Formula, FormulaFault, Kind, NodeId, Op, Position, Var};
use std::alloc::Global;
use std::test::Fail;

const HERE: Position = Position { line: 3, column: 5 };

// The variables of eleven terms, the last one left out where there are to be ten.
const ELEVEN: [(Var, i64); 11] = [
    (0, 1),
    (1, 1),
    (2, 1),
    (3, 1),
    (4, 1),
    (5, 1),
    (6, 1),
    (7, 1),
    (8, 1),
    (9, 1),
    (10, 1),
];

// Two nodes joined, or node 0 where one of them is not there.
fn join(
    formula: &mut Formula,
    alloc: Global,
    op: Op,
    a: NodeId,
    b: NodeId,
) -> Result<NodeId, FormulaFault> {
    if a < formula.len() && b < formula.len() {
        formula.binary(alloc, op, a, b, HERE)
    } else {
        Ok(0)
    }
}

// A quantifier over a node, or node 0 where it is not there.
fn bind(formula: &mut Formula, alloc: Global, v: Var, a: NodeId) -> Result<NodeId, FormulaFault> {
    if a < formula.len() {
        formula.exists(alloc, v, a, HERE)
    } else {
        Ok(0)
    }
}

// Whether the node is there with these variables, at the position of all nodes but the first.
fn has(formula: &Formula, id: NodeId, variables: &[Var]) -> bool {
    id < formula.len() && formula.variables(id) == variables && formula.position(id) == HERE
}

#[test]
fn variables_are_merged_and_bound(rt: HostRuntime) -> Result<(), Fail> {
    let alloc = rt.alloc();
    let mut formula = Formula::new(alloc)?;
    let a = formula.atom(alloc, Kind::Eq, &[(1, 1), (4, -2)], 5, HERE)?;
    let b = formula.atom(alloc, Kind::Mod(3), &[(0, 1), (4, 1)], 0, HERE)?;
    let both = join(&mut formula, alloc, Op::Iff, a, b)?;
    let bound = bind(&mut formula, alloc, 4, both)?;
    let again = bind(&mut formula, alloc, 4, bound)?;
    let falsity = formula.truth(alloc, false, HERE)?;
    assert!(rt; (a, b, both, bound, again, falsity) == (1, 2, 3, 4, 4, 5));
    assert!(rt; has(&formula, 1, &[1, 4]) && has(&formula, 2, &[0, 4]));
    assert!(rt; has(&formula, 3, &[0, 1, 4]) && has(&formula, 4, &[0, 1]));
    assert!(rt; has(&formula, 5, &[]) && !has(&formula, 6, &[]));
    Ok(())
}

#[test]
fn eleven_variables_and_too_many_nodes_are_refused(rt: HostRuntime) -> Result<(), Fail> {
    let alloc = rt.alloc();
    let tracks = Some(FormulaFault::Tracks { position: HERE });
    let mut formula = Formula::new(alloc)?;
    let eleven = formula.atom(alloc, Kind::Le, &ELEVEN, 0, HERE).err();
    assert!(rt; eleven == tracks && formula.len() == 1);
    assert!(rt; formula.atom(alloc, Kind::Le, &[(4, 1)], 0, HERE)? == 1);
    for _ in 2..65536 {
        let _ = formula.truth(alloc, true, HERE)?;
    }
    let last = formula.truth(alloc, true, HERE).err();
    let eleven_at_the_end = formula.atom(alloc, Kind::Le, &ELEVEN, 0, HERE).err();
    assert!(rt; last == Some(FormulaFault::Nodes) && eleven_at_the_end == tracks);
    assert!(rt; bind(&mut formula, alloc, 7, 1)? == 1 && formula.len() == 65536);
    Ok(())
}
