// Residuals and signs of normal forms.
ghost use Rattle.std.specs.Prelude.{◌≡◌, ◌<◌, ◌≤◌, ◌^◌, length, IfOk, IsTrue, ◌↔◌, unsigned_abs};
ghost use Rattle.pt_sets.specs.Words.{sign_vector};
ghost use Rattle.pt_sets.specs.Sets.{SameSet, residual as residual_set};
ghost use Rattle.pt_atoms.specs.Sums.{Congruent};
ghost use Rattle.pt_atoms.specs.Atoms.{Meets, HasModulus, NormalSet, IsNormal, residual_form};

use crate::numbers::{digit_sum, wide_residue_of};
use crate::parameter::{form_of, step};
use crate::{Normal, NormalKind};
use pt_digits::NoMemory;
use std::alloc::Global;

/// The residual of the normal form by a letter, in normal form: the vectors that are in the set with the letter's digits in front. `Always`
/// stays as it is, and the empty set is `Always(false)`. The only error is want of memory. The cost is one pass over the coefficients.
/// Source: Boudet and Comon, Diophantine equations, Presburger arithmetic and finite automata.
pub fn residual(alloc: Global, normal: &Normal, letter: u16) -> Result<Normal, NoMemory>
    requires normal_form { IsNormal normal.now }
    requires in_range { letter < 2 ^ length normal.now.coefficients }
    ensures form { IfOk result (λ n. n ≡ residual_form normal.now letter) }
    ensures normal_form { IfOk result (λ n. IsNormal n) }
    ensures set { IfOk result (λ n. SameSet (length normal.now.coefficients) (NormalSet n) (residual_set (NormalSet normal.now) letter)) }
{
    let sum = digit_sum(normal.coefficients.as_slice(), letter);
    let next = step(normal.kind, normal.constant - sum);
    form_of(alloc, normal.coefficients.as_slice(), next)
}

/// Whether the numbers differ by a multiple of m.
fn are_congruent(m: u64, a: i128, b: i128) -> bool
    requires modulus { 0 < m }
    requires first { unsigned_abs a ≤ 2 ^ 68 }
    requires second { unsigned_abs b ≤ 2 ^ 68 }
    ensures { IsTrue result ↔ Congruent m a b }
{
    wide_residue_of(a - b, m) == 0
}

/// Whether a normal form of this kind and constant holds of a vector with this sum.
pub(crate) fn holds_at(kind: NormalKind, sum: i128, constant: i128) -> bool
    requires modulus { HasModulus kind }
    requires sum { unsigned_abs sum ≤ 2 ^ 68 }
    requires constant { unsigned_abs constant ≤ 2 ^ 68 }
    ensures { IsTrue result ↔ Meets kind sum constant }
{
    match kind {
        NormalKind::Always(all) => all,
        NormalKind::Eq => sum == constant,
        NormalKind::Le => sum <= constant,
        NormalKind::Mod(m) => are_congruent(m, sum, constant),
    }
}

/// Whether the vector of a sign is in the set: in each track 0 where the digit is 0, and -1 where it is 1. It takes no memory, and one pass
/// over the coefficients.
pub fn meets(normal: &Normal, sign: u16) -> bool
    requires normal_form { IsNormal normal.now }
    requires in_range { sign < 2 ^ length normal.now.coefficients }
    ensures { IsTrue result ↔ NormalSet normal.now (sign_vector (length normal.now.coefficients) sign) }
{
    let sum = digit_sum(normal.coefficients.as_slice(), sign);
    holds_at(normal.kind, -sum, normal.constant)
}
