// Forms for nodes at a position.
ghost use Rattle.std.specs.Prelude.{◌≡◌, ◌≢◌, ◌<◌, ◌^◌, ◌-ℤ◌, pos, unsigned_abs, IfOk, MatchResult};
ghost use Rattle.pt_fresh.specs.declared.fault.TermFault.TheVariants as term_fault;
ghost use Rattle.pt_formula.specs.Sums.{IsForm, form_difference, form_scale};
ghost use Rattle.pt_fresh.specs.Making.{form, constant_form, variable_form};
ghost use Rattle.pt_fresh.specs.Builders.{size};
ghost use Rattle.pt_fresh.specs.Outcomes.{Answers};

use crate::fault::{TermFault, of_form};
use pt_formula::form::{difference, scale};
use pt_formula::{Form, Position, Terms, Var};
use std::alloc::Global;

/// The form of a number.
pub fn form_of_number(alloc: Global, number: i64) -> Form
    ensures value { result ≡ constant_form number }
    ensures form { IsForm result }
{
    Form {
        terms: Terms::new(Vec::new(alloc)),
        constant: number,
    }
}

/// The form of the greatest number below a size.
pub fn form_below(alloc: Global, size: u64) -> Form
    requires some { 0 < size }
    requires small { size < 2 ^ 63 }
    ensures value { result ≡ constant_form (pos size -ℤ pos 1) }
    ensures form { IsForm result }
{
    form_of_number(alloc, (size - 1) as i64)
}

/// The form of a variable.
pub fn form_of_variable(alloc: Global, v: Var) -> Result<Form, TermFault>
    ensures value { MatchResult result (λ f. f ≡ variable_form v) (λ fault. fault ≡ term_fault.NoMemory) }
    ensures form { IfOk result IsForm }
{
    let mut terms = Vec::new(alloc);
    terms.push((v, 1))?;
    Ok(Form {
        terms: Terms::new(terms),
        constant: 0,
    })
}

/// The difference of two forms.
pub fn difference_of(alloc: Global, a: &Form, b: &Form, at: Position) -> Result<Form, TermFault>
    requires a { IsForm a.now }
    requires b { IsForm b.now }
    ensures answers { Answers result (form (form_difference a.now b.now) at) }
    ensures form { IfOk result IsForm }
{
    match difference(alloc, a, b) {
        Ok(f) => Ok(f),
        Err(fault) => Err(of_form(fault, at)),
    }
}

/// A multiple of a form.
pub fn multiple_of(alloc: Global, by: i64, a: &Form, at: Position) -> Result<Form, TermFault>
    requires { IsForm a.now }
    ensures answers { Answers result (form (form_scale by a.now) at) }
    ensures form { IfOk result IsForm }
{
    match scale(alloc, a, by) {
        Ok(f) => Ok(f),
        Err(fault) => Err(of_form(fault, at)),
    }
}

/// The absolute value of a divisor.
pub fn size_of(n: i64) -> Result<u64, TermFault>
    requires { n ≢ pos 0 }
    ensures answers { Answers result (size n) }
    ensures value { IfOk result (λ m. m ≡ unsigned_abs n) }
    ensures some { IfOk result (λ m. 0 < m) }
    ensures small { IfOk result (λ m. m < 2 ^ 63) }
{
    if n == i64::MIN {
        return Err(TermFault::Coefficient);
    }
    Ok(n.unsigned_abs())
}
