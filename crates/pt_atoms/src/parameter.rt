// Parameters, which tell apart the forms that one form leads to.
ghost use Rattle.std.specs.Prelude.{◌≡◌, ◌<◌, ◌^◌, ◌%◌, ◌≢◌, IfOk};
ghost use Rattle.pt_atoms.specs.declared.NormalKind.TheVariants.{Mod as Modulo};
ghost use Rattle.pt_atoms.specs.Atoms.{HasModulus};
ghost use Rattle.pt_atoms.specs.Parameters.{coefficients_at, form_at, next_parameter};

use crate::coefficients::Coefficients;
use crate::numbers::{half_modulo_of, half_of, is_even_number, residues_of, wide_residue_of};
use crate::{Normal, NormalKind};
use pt_digits::NoMemory;
use std::alloc::Global;

/// The kind and the constant of a form.
#[derive(Clone, Copy, PartialEq, Eq, Hash)]
pub struct Parameter {
    pub kind: NormalKind,
    pub constant: i128,
}

/// The parameter of the residual of a congruence with an even modulus.
fn step_even(m: u64, r: i128) -> Parameter
    requires even { m % 2 ≢ 1 }
    requires above { 0 < m }
    ensures { result ≡ next_parameter (Modulo m) r }
{
    if !is_even_number(r) {
        return Parameter {
            kind: NormalKind::Always(false),
            constant: 0,
        };
    }
    if m / 2 == 1 {
        return Parameter {
            kind: NormalKind::Always(true),
            constant: 0,
        };
    }
    Parameter {
        kind: NormalKind::Mod(m / 2),
        constant: i128::from(wide_residue_of(half_of(r), m / 2)),
    }
}

/// The parameter of the residual of a congruence.
fn step_modulo(m: u64, r: i128) -> Parameter
    requires above { 0 < m }
    requires below { m < 2 ^ 63 }
    ensures { result ≡ next_parameter (Modulo m) r }
{
    if m % 2 != 1 {
        return step_even(m, r);
    }
    Parameter {
        kind: NormalKind::Mod(m),
        constant: i128::from(half_modulo_of(r, m)),
    }
}

/// The parameter of the residual, r the constant less the sum at the letter's digits.
pub fn step(kind: NormalKind, r: i128) -> Parameter
    requires { HasModulus kind }
    ensures { result ≡ next_parameter kind r }
{
    match kind {
        NormalKind::Always(all) => Parameter {
            kind: NormalKind::Always(all),
            constant: 0,
        },
        NormalKind::Eq => {
            if is_even_number(r) {
                Parameter {
                    kind: NormalKind::Eq,
                    constant: half_of(r),
                }
            } else {
                Parameter {
                    kind: NormalKind::Always(false),
                    constant: 0,
                }
            }
        }
        NormalKind::Le => Parameter {
            kind: NormalKind::Le,
            constant: half_of(r),
        },
        NormalKind::Mod(m) => step_modulo(m, r),
    }
}

/// The coefficients of the first form, as the forms of a kind have them.
pub fn coefficients_of(
    alloc: Global,
    coefficients: &[i64],
    kind: NormalKind,
) -> Result<Coefficients, NoMemory>
    requires { HasModulus kind }
    ensures { IfOk result (λ c. c ≡ coefficients_at kind coefficients.now) }
{
    match kind {
        NormalKind::Always(_) => Coefficients::zeros(alloc, coefficients.len()),
        NormalKind::Eq => Coefficients::copy_of(alloc, coefficients),
        NormalKind::Le => Coefficients::copy_of(alloc, coefficients),
        NormalKind::Mod(m) => residues_of(alloc, coefficients, m),
    }
}

/// The form with a parameter.
pub fn form_of(
    alloc: Global,
    coefficients: &[i64],
    parameter: Parameter,
) -> Result<Normal, NoMemory>
    requires { HasModulus parameter.kind }
    ensures { IfOk result (λ n. n ≡ form_at coefficients.now parameter) }
{
    Ok(Normal {
        kind: parameter.kind,
        coefficients: coefficients_of(alloc, coefficients, parameter.kind)?,
        constant: parameter.constant,
    })
}
