// The builders against plain arithmetic, and their nodes as literals.
ghost use Rattle.std.specs.Prelude.{◌≢◌, pos};

use crate::forms::form_of_number;
use crate::samples::{
    HERE, Shape, absolute, chosen, holds, is_only_at, multiple, quotient, related, rest, shown,
};
use crate::{Relation, TermFault, compare};
use pt_formula::{Formula, Kind};
use std::alloc::Global;
use std::test::Fail;

fn are_quotients(alloc: Global, n: i64) -> Result<bool, TermFault>
    requires { n ≢ pos 0 }
{
    let mut formula = Formula::new(alloc)?;
    let quotient = quotient(&mut formula, alloc, 1, 0, n)?;
    for x in -30i64..31 {
        if !is_only_at(&formula, quotient, x, x.wrapping_div_euclid(n)) {
            return Ok(false);
        }
    }
    Ok(true)
}

fn are_remainders(alloc: Global, n: i64) -> Result<bool, TermFault>
    requires { n ≢ pos 0 }
{
    let mut formula = Formula::new(alloc)?;
    let remainder = rest(&mut formula, alloc, 1, 0, n)?;
    for x in -30i64..31 {
        if !is_only_at(&formula, remainder, x, x.wrapping_rem_euclid(n)) {
            return Ok(false);
        }
    }
    Ok(true)
}

#[test]
fn quotients_and_remainders_are_those_of_plain_arithmetic(rt: HostRuntime) -> Result<(), Fail> {
    for n in -7i64..8 {
        if n != 0 {
            assert!(rt; are_quotients(rt.alloc(), n)?, "{n}");
            assert!(rt; are_remainders(rt.alloc(), n)?, "{n}");
        }
    }
    Ok(())
}

#[test]
fn magnitudes_are_those_of_plain_arithmetic(rt: HostRuntime) -> Result<(), Fail> {
    let mut formula = Formula::new(rt.alloc())?;
    let magnitude = absolute(&mut formula, rt.alloc(), 1, 0)?;
    for x in -30i64..31 {
        assert!(rt; is_only_at(&formula, magnitude, x, x.wrapping_abs()), "{x}");
    }
    Ok(())
}

#[test]
fn choices_are_those_of_plain_arithmetic(rt: HostRuntime) -> Result<(), Fail> {
    let alloc = rt.alloc();
    let mut formula = Formula::new(alloc)?;
    let above = related(&mut formula, alloc, Relation::Above, 0, 5)?;
    let chosen = chosen(&mut formula, alloc, above)?;
    for x in -30i64..31 {
        let wanted = if x > 5 { x } else { 3i64.wrapping_sub(x) };
        assert!(rt; is_only_at(&formula, chosen, x, wanted), "{x}");
    }
    Ok(())
}

fn is_related(relation: Relation, a: i64, b: i64) -> bool {
    match relation {
        Relation::Equal => a == b,
        Relation::AtMost => a <= b,
        Relation::AtLeast => a >= b,
        Relation::Below => a < b,
        Relation::Above => a > b,
    }
}

// Whether x + 3 and 5 compare as the numbers do.
fn are_related(alloc: Global, relation: Relation) -> Result<bool, TermFault> {
    let mut formula = Formula::new(alloc)?;
    let id = related(&mut formula, alloc, relation, 3, 5)?;
    for x in -30i64..31 {
        if holds(&formula, id, [x, 0, 0]) != is_related(relation, x + 3, 5) {
            return Ok(false);
        }
    }
    Ok(true)
}

// Whether x + 7 is divided as the numbers are.
fn are_multiples(alloc: Global, n: u64) -> Result<bool, TermFault> {
    let mut formula = Formula::new(alloc)?;
    let id = multiple(&mut formula, alloc, n, 7)?;
    for x in -30i64..31 {
        let divided = n != 0 && (i128::from(x) + 7).rem_euclid(i128::from(n)) == 0;
        if holds(&formula, id, [x, 0, 0]) != divided {
            return Ok(false);
        }
    }
    Ok(true)
}

// Whether two numbers compare so, by the node.
fn numbers_compare(alloc: Global, relation: Relation, a: i64, b: i64) -> Result<bool, TermFault> {
    let mut formula = Formula::new(alloc)?;
    let a = form_of_number(alloc, a);
    let b = form_of_number(alloc, b);
    let id = compare(&mut formula, alloc, relation, &a, &b, HERE)?;
    Ok(holds(&formula, id, [0, 0, 0]))
}

#[test]
fn comparisons_are_those_of_numbers(rt: HostRuntime) -> Result<(), Fail> {
    for relation in [
        Relation::Equal,
        Relation::AtMost,
        Relation::AtLeast,
        Relation::Below,
        Relation::Above,
    ] {
        assert!(rt; are_related(rt.alloc(), relation)?, "{relation:?}");
        for (a, b) in [(6, 3), (3, 3), (-6, 3)] {
            let compare = numbers_compare(rt.alloc(), relation, a, b)?;
            assert!(rt;
                compare == is_related(relation, a, b),
                "{relation:?} {a} {b}"
            );
        }
    }
    for n in 1u64..8 {
        assert!(rt; are_multiples(rt.alloc(), n)?, "{n}");
    }
    Ok(())
}

#[test]
fn nodes_are_made_in_order(rt: HostRuntime) -> Result<(), Fail> {
    let alloc = rt.alloc();
    let mut formula = Formula::new(alloc)?;
    let q = quotient(&mut formula, alloc, 1, 5, -2)?;
    let r = rest(&mut formula, alloc, 1, 5, -3)?;
    let m = absolute(&mut formula, alloc, 1, -4)?;
    assert!(rt; (q, r, m, formula.len()) == (3, 8, 13, 14));
    for (id, want) in [
        (1, Shape::Atom(Kind::Le, -1, -2, 5)),
        (2, Shape::Atom(Kind::Le, 1, 2, -4)),
        (3, Shape::And(1, 2)),
        (4, Shape::Atom(Kind::Le, 0, -1, 0)),
        (5, Shape::Atom(Kind::Le, 0, 1, 2)),
        (6, Shape::And(4, 5)),
        (7, Shape::Atom(Kind::Mod(3), 1, -1, 1)),
        (8, Shape::And(6, 7)),
        (9, Shape::Atom(Kind::Le, 0, -1, 0)),
        (10, Shape::Atom(Kind::Eq, -1, 1, -4)),
        (11, Shape::Atom(Kind::Eq, 1, 1, 4)),
        (12, Shape::Or(10, 11)),
        (13, Shape::And(9, 12)),
    ] {
        assert!(rt; shown(&formula, id) == want, "{id}");
    }
    Ok(())
}

#[test]
fn nodes_of_choices_are_made_in_order(rt: HostRuntime) -> Result<(), Fail> {
    let alloc = rt.alloc();
    let mut formula = Formula::new(alloc)?;
    let c = multiple(&mut formula, alloc, 4, 7)?;
    let chosen = chosen(&mut formula, alloc, c)?;
    assert!(rt; (c, chosen, formula.len()) == (1, 7, 8));
    for (id, want) in [
        (1, Shape::Atom(Kind::Mod(4), 1, 0, 1)),
        (2, Shape::Atom(Kind::Eq, -1, 1, 0)),
        (3, Shape::And(1, 2)),
        (4, Shape::Not(1)),
        (5, Shape::Atom(Kind::Eq, 1, 1, 3)),
        (6, Shape::And(4, 5)),
        (7, Shape::Or(3, 6)),
    ] {
        assert!(rt; shown(&formula, id) == want, "{id}");
    }
    Ok(())
}
