// Nodes closed by definitions, and refusals.
ghost use Rattle.std.specs.Prelude.{◌≡◌, ◌≢◌, IfOk, false, pos};
ghost use Rattle.pt_formula.specs.Sums.{IsForm};
ghost use Rattle.pt_fresh.specs.Sides.{names};

use crate::closing::is_free;
use crate::forms::{form_of_number, form_of_variable};
use crate::laws::added_nodes_change_no_definition;
use crate::samples::{
    HERE, Shape, absolute, chosen, form, holds, is_only_at, multiple, quotient, related, rest,
    shown,
};
use crate::{
    Relation, Side, Term, TermFault, choice, close, compare, divide, magnitude, remainder,
};
use pt_formula::{Form, Formula, Kind, NoMemory, NodeId, Terms, Var};
use std::alloc::Global;
use std::test::Fail;

// That a variable is a number.
fn is_number(
    formula: &mut Formula,
    alloc: Global,
    v: Var,
    number: i64,
) -> Result<NodeId, TermFault> {
    let a = form_of_variable(alloc, v)?;
    let b = form_of_number(alloc, number);
    compare(formula, alloc, Relation::Equal, &a, &b, HERE)
}

// A node closed by the definition of variable 1 as x div 3, and of variable 2 as its remainder by 2.
fn closed(formula: &mut Formula, alloc: Global, body: NodeId) -> Result<NodeId, TermFault> {
    let x = form_of_variable(alloc, 0)?;
    let q = form_of_variable(alloc, 1)?;
    let first = divide(formula, alloc, 1, &x, 3, HERE)?;
    formula.is_formula();
    let second = remainder(formula, alloc, 2, &q, 2, HERE)?;
    if body >= formula.len() {
        return Ok(0);
    }
    if is_free(formula, 2, first) {
        return Ok(0);
    }
    added_nodes_change_no_definition();
    close(formula, alloc, body, &[(1, first), (2, second)], HERE)
}

#[test]
fn closed_nodes_hold_at_the_defined_values(rt: HostRuntime) -> Result<(), Fail> {
    let alloc = rt.alloc();
    let mut formula = Formula::new(alloc)?;
    let body = is_number(&mut formula, alloc, 2, 1)?;
    let odd = closed(&mut formula, alloc, body)?;
    assert!(rt; (body, odd, formula.len()) == (1, 13, 14));
    assert!(rt; shown(&formula, 10) == Shape::And(9, 1));
    assert!(rt; shown(&formula, 11) == Shape::Exists(2, 10));
    assert!(rt; shown(&formula, 12) == Shape::And(4, 11));
    assert!(rt; shown(&formula, 13) == Shape::Exists(1, 12));
    for x in -30i64..31 {
        let wanted = x.div_euclid(3).rem_euclid(2) == 1;
        assert!(rt; holds(&formula, odd, [x, 0, 0]) == wanted, "{x}");
    }
    Ok(())
}

#[test]
fn variables_that_are_not_free_are_not_bound(rt: HostRuntime) -> Result<(), Fail> {
    let alloc = rt.alloc();
    let mut formula = Formula::new(alloc)?;
    let of_first = is_number(&mut formula, alloc, 1, 2)?;
    let of_none = is_number(&mut formula, alloc, 0, 2)?;
    let same = closed(&mut formula, alloc, of_none)?;
    assert!(rt; same == of_none && formula.len() == 11);
    let two = closed(&mut formula, alloc, of_first)?;
    assert!(rt; two == 20 && formula.len() == 21);
    assert!(rt; shown(&formula, 19) == Shape::And(13, of_first));
    assert!(rt; shown(&formula, 20) == Shape::Exists(1, 19));
    let chosen = chosen(&mut formula, alloc, two)?;
    for x in 0i64..12 {
        let wanted = if x.div_euclid(3) == 2 {
            x
        } else {
            3i64.wrapping_sub(x)
        };
        assert!(rt; is_only_at(&formula, chosen, x, wanted), "{x}");
    }
    Ok(())
}

#[test]
fn terms_are_forms_with_their_definitions(rt: HostRuntime) -> Result<(), Fail> {
    let mut items = Vec::new(rt.alloc());
    items.push((1, 5))?;
    let term = Term {
        form: form(rt.alloc(), 1, 4)?,
        side: Side::new(items),
    };
    assert!(rt; term.side.as_slice() == [(1, 5)].as_slice() && term.form.constant == 4);
    Ok(())
}

// The sum of the variables 1 to 10.
fn ten(alloc: Global) -> Result<Form, NoMemory>
    ensures form { IfOk result IsForm }
    ensures other { IfOk result (λ f. names 0 f ≡ false) }
{
    let items = Vec::from_slice(
        alloc,
        &[
            (1, 1),
            (2, 1),
            (3, 1),
            (4, 1),
            (5, 1),
            (6, 1),
            (7, 1),
            (8, 1),
            (9, 1),
            (10, 1),
        ],
    )?;
    Ok(Form {
        terms: Terms::new(items),
        constant: 0,
    })
}

type Refusals = (Option<TermFault>, Option<TermFault>, Option<TermFault>);

// The refusals of variable 0 as the quotient, the remainder and the absolute value of a sum of ten variables.
fn wide(formula: &mut Formula, alloc: Global, n: i64) -> Result<Refusals, TermFault>
    requires { n ≢ pos 0 }
{
    let a = ten(alloc)?;
    let quotient = divide(formula, alloc, 0, &a, n, HERE).err();
    let rest = remainder(formula, alloc, 0, &a, n, HERE).err();
    let absolute = magnitude(formula, alloc, 0, &a, HERE).err();
    Ok((quotient, rest, absolute))
}

// The refusals of a node over the variables 1 to 10: where a choice of variable 0 is made by it, and where it is closed by a definition of
// variable 1 over variable 0.
fn crowded(
    formula: &mut Formula,
    alloc: Global,
) -> Result<(Option<TermFault>, Option<TermFault>), TermFault> {
    let a = ten(alloc)?;
    let number = form_of_number(alloc, 0);
    let body = compare(formula, alloc, Relation::Equal, &a, &number, HERE)?;
    if is_free(formula, 0, body) {
        return Ok((None, None));
    }
    let chosen = choice(formula, alloc, 0, body, &number, &number, HERE).err();
    let x = form_of_variable(alloc, 0)?;
    let definition = divide(formula, alloc, 1, &x, 3, HERE)?;
    if body >= formula.len() {
        return Ok((None, None));
    }
    let closed = close(formula, alloc, body, &[(1, definition)], HERE).err();
    Ok((chosen, closed))
}

const LEAST: i64 = -0x8000_0000_0000_0000;

const GREATEST: i64 = 0x7fff_ffff_ffff_ffff;

#[test]
fn numbers_of_more_than_64_bits_are_refused(rt: HostRuntime) -> Result<(), Fail> {
    let alloc = rt.alloc();
    let coefficient = Some(TermFault::Coefficient);
    let mut formula = Formula::new(alloc)?;
    let f = &mut formula;
    for (by, constant, n, nodes) in [
        (1, 0, LEAST, 1),
        (LEAST, 0, 2, 1),
        (1, LEAST, 2, 1),
        (1, LEAST + 1, 3, 2),
    ] {
        assert!(rt;
            quotient(f, alloc, by, constant, n).err() == coefficient,
            "{by} {constant}"
        );
        assert!(rt; f.len() == nodes, "{by} {constant}");
    }
    assert!(rt; rest(f, alloc, 1, 0, LEAST).err() == coefficient && f.len() == 2);
    assert!(rt; absolute(f, alloc, LEAST, 0).err() == coefficient && f.len() == 3);
    assert!(rt; quotient(f, alloc, 1, 0, GREATEST)? == 5 && rest(f, alloc, 1, 0, GREATEST)? == 10);
    assert!(rt; related(f, alloc, Relation::Equal, LEAST, 0).err() == coefficient);
    assert!(rt; related(f, alloc, Relation::Below, LEAST, 0)? == 11);
    assert!(rt; shown(f, 11) == Shape::Atom(Kind::Le, 1, 0, GREATEST));
    Ok(())
}

#[test]
fn eleven_variables_and_too_many_nodes_are_refused(rt: HostRuntime) -> Result<(), Fail> {
    let alloc = rt.alloc();
    let coefficient = Some(TermFault::Coefficient);
    let tracks = Some(TermFault::Tracks { position: HERE });
    let nodes = Some(TermFault::Nodes);
    let mut formula = Formula::new(alloc)?;
    let f = &mut formula;
    assert!(rt; wide(f, alloc, LEAST)? == (coefficient, coefficient, tracks) && f.len() == 2);
    assert!(rt; wide(f, alloc, 2)? == (tracks, tracks, tracks) && f.len() == 6);
    assert!(rt; crowded(f, alloc)? == (tracks, tracks) && f.len() == 11);
    for _ in 11..65534 {
        let _ = f.truth(alloc, true, HERE)?;
    }
    assert!(rt; quotient(f, alloc, 1, 0, 2).err() == nodes && f.len() == 65536);
    assert!(rt; quotient(f, alloc, 1, 0, LEAST).err() == coefficient);
    assert!(rt; rest(f, alloc, 1, 0, 2).err() == nodes);
    assert!(rt; absolute(f, alloc, 1, 0).err() == nodes);
    assert!(rt; chosen(f, alloc, 0).err() == nodes);
    assert!(rt; multiple(f, alloc, 3, 0).err() == nodes);
    Ok(())
}
