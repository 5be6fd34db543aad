// Normal forms of atoms.
ghost use Rattle.std.specs.Prelude.{◌≡◌, ◌<◌, ◌≤◌, ◌^◌, ◌%◌, ◌/◌, List, length, map, IfOk, unsigned_abs, true, false};
ghost use Rattle.pt_sets.specs.Sets.{SameSet};
ghost use Rattle.pt_atoms.specs.declared.Kind.TheVariants.{Eq as EqKind, Le as LeKind, Mod as ModKind};
ghost use Rattle.pt_atoms.specs.Atoms.{IsInRangeFor, AtomSet, NormalSet, IsNormal, IsModulus, IsNormalFormOf, IsNormalFormAt, normal_at, quotient, always, congruence_at};

use crate::coefficients::Coefficients;
use crate::numbers::{gcd_of, quotient_of, quotients_of, residue_of, residues_of};
use crate::{Atom, Kind, Normal, NormalKind};
use pt_digits::NoMemory;
use std::alloc::Global;

/// The set of all vectors, or the empty set.
fn always_form(alloc: Global, all: bool, tracks: usize) -> Result<Normal, NoMemory>
    ensures { IfOk result (λ n. n ≡ always all tracks) }
{
    Ok(Normal {
        kind: NormalKind::Always(all),
        coefficients: Coefficients::zeros(alloc, tracks)?,
        constant: 0,
    })
}

/// The form of an equation or inequality with a coefficient that is not 0, g the greatest common divisor.
fn divided_form(
    alloc: Global,
    kind: NormalKind,
    coefficients: &[i64],
    constant: i64,
    g: u64,
) -> Result<Normal, NoMemory>
    requires { 0 < g }
    ensures kind { IfOk result (λ n. n.kind ≡ kind) }
    ensures coefficients { IfOk result (λ n. n.coefficients ≡ map (quotient g) coefficients.now) }
    ensures constant { IfOk result (λ n. n.constant ≡ quotient g constant) }
{
    Ok(Normal {
        kind,
        coefficients: quotients_of(alloc, coefficients, g)?,
        constant: i128::from(quotient_of(constant, g)),
    })
}

/// The normal form of an equation, g the greatest common divisor of its coefficients.
fn equation_by(
    alloc: Global,
    coefficients: &[i64],
    constant: i64,
    g: u64,
) -> Result<Normal, NoMemory>
    ensures { IfOk result (λ n. n ≡ normal_at EqKind g coefficients.now constant) }
{
    if g == 0 {
        return always_form(alloc, constant == 0, coefficients.len());
    }
    if constant.unsigned_abs() % g != 0 {
        return always_form(alloc, false, coefficients.len());
    }
    divided_form(alloc, NormalKind::Eq, coefficients, constant, g)
}

/// The normal form of an equation.
fn equation_form(alloc: Global, coefficients: &[i64], constant: i64) -> Result<Normal, NoMemory>
    ensures form { IfOk result (λ n. IsNormalFormAt EqKind coefficients.now constant n) }
    ensures range { IsInRangeFor EqKind coefficients.now constant }
{
    equation_by(alloc, coefficients, constant, gcd_of(0, coefficients))
}

/// The normal form of an inequality, g the greatest common divisor of its coefficients.
fn inequality_by(
    alloc: Global,
    coefficients: &[i64],
    constant: i64,
    g: u64,
) -> Result<Normal, NoMemory>
    ensures { IfOk result (λ n. n ≡ normal_at LeKind g coefficients.now constant) }
{
    if g == 0 {
        return always_form(alloc, 0 <= constant, coefficients.len());
    }
    divided_form(alloc, NormalKind::Le, coefficients, constant, g)
}

/// The normal form of an inequality.
fn inequality_form(alloc: Global, coefficients: &[i64], constant: i64) -> Result<Normal, NoMemory>
    ensures form { IfOk result (λ n. IsNormalFormAt LeKind coefficients.now constant n) }
    ensures range { IsInRangeFor LeKind coefficients.now constant }
{
    inequality_by(alloc, coefficients, constant, gcd_of(0, coefficients))
}

/// The normal form of a congruence whose numbers are residues, g the greatest common divisor of them and the modulus.
fn reduced_congruence(
    alloc: Global,
    coefficients: &[i64],
    constant: i64,
    m: u64,
    g: u64,
) -> Result<Normal, NoMemory>
    requires { 0 < g }
    ensures { IfOk result (λ n. n ≡ congruence_at m g coefficients.now constant) }
{
    if constant.unsigned_abs() % g != 0 {
        return always_form(alloc, false, coefficients.len());
    }
    if m / g == 1 {
        return always_form(alloc, true, coefficients.len());
    }
    divided_form(alloc, NormalKind::Mod(m / g), coefficients, constant, g)
}

/// The normal form of a congruence.
fn congruence_form(
    alloc: Global,
    coefficients: &[i64],
    constant: i64,
    m: u64,
) -> Result<Normal, NoMemory>
    requires above { 0 < m }
    requires below { m < 2 ^ 63 }
    ensures { IfOk result (λ n. IsNormalFormAt (ModKind m) coefficients.now constant n) }
{
    let residues = residues_of(alloc, coefficients, m)?;
    let g = gcd_of(m, residues.as_slice());
    reduced_congruence(alloc, residues.as_slice(), residue_of(constant, m), m, g)
}

/// The normal form of an atom of this kind.
fn first_form(
    alloc: Global,
    kind: Kind,
    coefficients: &[i64],
    constant: i64,
) -> Result<Normal, NoMemory>
    requires { IsModulus kind }
    ensures form { IfOk result (λ n. IsNormalFormAt kind coefficients.now constant n) }
    ensures range { IsInRangeFor kind coefficients.now constant }
{
    match kind {
        Kind::Eq => equation_form(alloc, coefficients, constant),
        Kind::Le => inequality_form(alloc, coefficients, constant),
        Kind::Mod(m) => congruence_form(alloc, coefficients, constant, m),
    }
}

/// The normal form of the atom, with the same set. An equation and an inequality are divided by the greatest common divisor of their
/// coefficients, the constant of an inequality rounded down; a congruence is reduced, and then divided by that of its coefficients and the
/// modulus. An equation or congruence whose constant is not a multiple, and an atom without coefficients but 0, is `Always`. The only error
/// is want of memory. The cost is one pass over the coefficients, with Euclid's algorithm at each.
pub fn normal(alloc: Global, atom: &Atom) -> Result<Normal, NoMemory>
    requires tracks { length atom.now.coefficients ≤ 10 }
    requires modulus { IsModulus atom.now.kind }
    ensures form { IfOk result (λ n. IsNormalFormOf atom.now n) }
    ensures normal_form { IfOk result (λ n. IsNormal n) }
    ensures tracks { IfOk result (λ n. length n.coefficients ≡ length atom.now.coefficients) }
    ensures set { IfOk result (λ n. SameSet (length atom.now.coefficients) (NormalSet n) (AtomSet atom.now)) }
{
    first_form(
        alloc,
        atom.kind,
        atom.coefficients.as_slice(),
        atom.constant,
    )
}
