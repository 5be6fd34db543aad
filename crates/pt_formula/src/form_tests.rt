// Sums, differences and multiples of forms, up to both ends of 64 bits.
ghost use Rattle.std.specs.Prelude.{◌≡◌, IfOk};

use crate::form::{difference, scale, sum};
use crate::{Form, FormFault, NoMemory, Terms, Var};
use std::alloc::Global;
use std::test::Fail;

const MAX: i64 = 0x7fff_ffff_ffff_ffff;

const MIN: i64 = -0x8000_0000_0000_0000;

fn form(alloc: Global, terms: &[(Var, i64)], constant: i64) -> Result<Form, NoMemory>
    ensures { IfOk result (λ f. f ≡ record { terms = terms.now; constant = constant }) }
{
    let terms = Terms::copy_of(alloc, terms)?;
    Ok(Form { terms, constant })
}

// Whether the form is the one of these terms and constant.
fn is(form: Result<Form, FormFault>, terms: &[(Var, i64)], constant: i64) -> bool {
    match form {
        Ok(form) => form.terms.as_slice() == terms && form.constant == constant,
        Err(_) => false,
    }
}

#[test]
fn terms_are_merged_and_zeros_left_out(rt: HostRuntime) -> Result<(), Fail> {
    let alloc = rt.alloc();
    let x = form(alloc, &[(0, 1)], 0)?;
    let minus = form(alloc, &[(0, -1)], 0)?;
    let a = form(alloc, &[(1, 2), (4, -3), (6, 5)], 7)?;
    let b = form(alloc, &[(0, 1), (4, 3), (6, 1)], -9)?;
    assert!(rt; is(sum(alloc, &x, &minus), &[], 0) && is(difference(alloc, &x, &x), &[], 0));
    assert!(rt; is(sum(alloc, &a, &b), &[(0, 1), (1, 2), (6, 6)], -2));
    assert!(rt;
        is(
            difference(alloc, &a, &b),
            &[(0, -1), (1, 2), (4, -6), (6, 4)],
            16
        )
    );
    assert!(rt; is(scale(alloc, &a, -2), &[(1, -4), (4, 6), (6, -10)], -14));
    assert!(rt; is(scale(alloc, &a, 0), &[], 0));
    Ok(())
}

#[test]
fn numbers_of_more_than_64_bits_are_refused(rt: HostRuntime) -> Result<(), Fail> {
    let alloc = rt.alloc();
    let coefficient = Some(FormFault::Coefficient);
    let high = form(alloc, &[(2, MAX)], MAX)?;
    let low = form(alloc, &[(2, MIN)], MIN)?;
    let one = form(alloc, &[], 1)?;
    let x = form(alloc, &[(2, 1)], 0)?;
    let greatest = form(alloc, &[], MAX)?;
    assert!(rt; sum(alloc, &greatest, &one).err() == coefficient);
    assert!(rt; sum(alloc, &high, &one).err() == coefficient);
    assert!(rt; sum(alloc, &high, &x).err() == coefficient);
    assert!(rt; difference(alloc, &low, &one).err() == coefficient);
    assert!(rt; difference(alloc, &low, &x).err() == coefficient);
    assert!(rt; scale(alloc, &low, -1).err() == coefficient);
    assert!(rt; is(sum(alloc, &high, &low), &[(2, -1)], -1));
    assert!(rt; is(scale(alloc, &high, -1), &[(2, MIN + 1)], MIN + 1));
    assert!(rt; is(scale(alloc, &x, MIN), &[(2, MIN)], 0));
    Ok(())
}

#[test]
fn eleven_terms_are_refused(rt: HostRuntime) -> Result<(), Fail> {
    let alloc = rt.alloc();
    let ten = form(
        alloc,
        &[
            (0, 1),
            (1, 1),
            (2, 1),
            (3, 1),
            (4, 1),
            (5, 1),
            (6, 1),
            (7, 1),
            (8, 1),
            (9, 1),
        ],
        MAX,
    )?;
    let eleventh = form(alloc, &[(10, 1)], 0)?;
    let and_one = form(alloc, &[(10, 1)], 1)?;
    assert!(rt; sum(alloc, &ten, &eleventh).err() == Some(FormFault::Tracks));
    assert!(rt; sum(alloc, &ten, &and_one).err() == Some(FormFault::Coefficient));
    assert!(rt; difference(alloc, &ten, &ten).is_ok());
    Ok(())
}
