ghost use Rattle.std.specs.Prelude.{◌≡◌, ◌<◌, ◌≤◌, ◌+◌, ◌⊎◌, ◌+ℤ◌, ◌*ℤ◌, ◌++◌, [], length, drop, true, false, MatchOption};
ghost use Rattle.pt_formula.specs.Forms.{AreTerms};
ghost use Rattle.pt_formula.specs.Sums.{IsForm, Checked, form_sum, form_difference, form_scale, sum_terms, scale_terms, term_list, fits, GivesTerms, combined_form};
ghost use Rattle.pt_formula.specs.declared.form.FormFault.TheVariants as form_fault;

use crate::terms::Terms;
use crate::{MAX_TRACKS, Var};
use std::alloc::{AllocFailed, Global};
use std::cmp::Ordering;

/// A linear form: the sum of its terms and the constant. The variables of the terms increase, no coefficient is 0, and there are at most
/// `MAX_TRACKS`. It is plain data: that it is a form is a condition of the calls that take it.
#[derive(Drop)]
pub struct Form {
    pub terms: Terms,
    pub constant: i64,
}

/// Why a form was not made.
#[derive(Clone, Copy, Debug, PartialEq, Eq)]
pub enum FormFault {
    /// A coefficient or the constant does not fit 64 bits.
    Coefficient,
    /// That is not so, and there are more than `MAX_TRACKS` terms.
    Tracks,
    NoMemory,
}

impl<T: Drop> From<AllocFailed<T>> for FormFault {
    ghost from_gives = { λ _ fault. fault ≡ form_fault.NoMemory };

    fn from(_failed: AllocFailed<T>) -> Self {
        FormFault::NoMemory
    }
}

/// The next term of a sum, and the places from which the two lists go on.
#[derive(Clone, Copy)]
struct Next {
    variable: Var,
    coefficient: i128,
    left: usize,
    right: usize,
}

/// The number, where it fits 64 bits.
fn narrowed(number: i128) -> Option<i64>
    ensures { MatchOption result (fits number ≡ false) (λ c. (fits number ≡ true) × (c ≡ number)) }
{
    if number < -0x8000_0000_0000_0000 || number > 0x7fff_ffff_ffff_ffff {
        return None;
    }
    Some(number as i64)
}

/// One number and `by` times another. A sum of so many bits does not wrap.
fn wide_sum(a: i64, by: i64, b: i64) -> i128
    ensures { result ≡ a +ℤ by *ℤ b }
{
    i128::from(a) + i128::from(by) * i128::from(b)
}

/// The next term of the terms `a` from place `i` on and `by` times the terms `b` from place `j` on.
fn next_term(a: &[(Var, i64)], i: usize, by: i64, b: &[(Var, i64)], j: usize) -> Next
    requires a { AreTerms a.now }
    requires b { AreTerms b.now }
    requires left { i ≤ length a.now }
    requires right { j ≤ length b.now }
    requires some { (i < length a.now) ⊎ (j < length b.now) }
    ensures left { result.left ≤ length a.now }
    ensures right { result.right ≤ length b.now }
    ensures more { i + j < result.left + result.right }
    ensures term { sum_terms (drop i a.now) (scale_terms by (drop j b.now)) ≡ term_list (result.variable, result.coefficient) ++ sum_terms (drop result.left a.now) (scale_terms by (drop result.right b.now)) }
{
    if j == b.len() {
        let t = a[i];
        return Next {
            variable: t.0,
            coefficient: i128::from(t.1),
            left: i + 1,
            right: j,
        };
    }
    let u = b[j];
    let product = i128::from(by) * i128::from(u.1);
    if i == a.len() {
        return Next {
            variable: u.0,
            coefficient: product,
            left: i,
            right: j + 1,
        };
    }
    let t = a[i];
    match t.0.cmp(&u.0) {
        Ordering::Less => Next {
            variable: t.0,
            coefficient: i128::from(t.1),
            left: i + 1,
            right: j,
        },
        Ordering::Equal => Next {
            variable: t.0,
            coefficient: wide_sum(t.1, by, u.1),
            left: i + 1,
            right: j + 1,
        },
        Ordering::Greater => Next {
            variable: u.0,
            coefficient: product,
            left: i,
            right: j + 1,
        },
    }
}

/// The terms `a` and `by` times the terms `b`, merged by one pass.
fn merged(alloc: Global, a: &[(Var, i64)], by: i64, b: &[(Var, i64)]) -> Result<Terms, FormFault>
    requires a { AreTerms a.now }
    requires b { AreTerms b.now }
    ensures { GivesTerms result (sum_terms a.now (scale_terms by b.now)) }
{
    let mut items = Vec::new(alloc);
    let mut i = 0usize;
    let mut j = 0usize;
    while i < a.len() || j < b.len() {
        let next = next_term(a, i, by, b, j);
        if next.coefficient != 0 {
            let Some(coefficient) = narrowed(next.coefficient) else {
                return Err(FormFault::Coefficient);
            };
            items.push((next.variable, coefficient))?;
        }
        i = next.left;
        j = next.right;
    }
    Ok(Terms::new(items))
}

/// The form of the terms and the constant and `by` times the form `b`.
fn combined(
    alloc: Global,
    terms: &[(Var, i64)],
    constant: i64,
    by: i64,
    b: &Form,
) -> Result<Form, FormFault>
    requires terms { AreTerms terms.now }
    requires b { IsForm b.now }
    ensures { Checked result (combined_form terms.now constant by b.now) }
{
    let terms = merged(alloc, terms, by, b.terms.as_slice())?;
    let Some(constant) = narrowed(wide_sum(constant, by, b.constant)) else {
        return Err(FormFault::Coefficient);
    };
    if terms.as_slice().len() > MAX_TRACKS {
        return Err(FormFault::Tracks);
    }
    Ok(Form { terms, constant })
}

/// The exact sum of two forms, by one pass over both.
pub fn sum(alloc: Global, a: &Form, b: &Form) -> Result<Form, FormFault>
    requires a { IsForm a.now }
    requires b { IsForm b.now }
    ensures { Checked result (form_sum a.now b.now) }
{
    combined(alloc, a.terms.as_slice(), a.constant, 1, b)
}

/// The exact difference of two forms, by one pass over both.
pub fn difference(alloc: Global, a: &Form, b: &Form) -> Result<Form, FormFault>
    requires a { IsForm a.now }
    requires b { IsForm b.now }
    ensures { Checked result (form_difference a.now b.now) }
{
    combined(alloc, a.terms.as_slice(), a.constant, -1, b)
}

/// The exact multiple of a form, by one pass.
pub fn scale(alloc: Global, a: &Form, by: i64) -> Result<Form, FormFault>
    requires { IsForm a.now }
    ensures { Checked result (form_scale by a.now) }
{
    combined(alloc, &[], 0, by, a)
}
