ghost use Rattle.std.specs.Prelude.{◌≡◌, ◌<◌, ◌≤◌, ◌^◌, ◌*◌, ◌+◌, ◌%◌, List, ◌∷◌, length, map, pos, IfOk, unsigned_abs, ◌+ℤ◌, ◌*ℤ◌};
ghost use Rattle.std.specs.List.{AllByRecursion};
ghost use Rattle.std.specs.Int.{IsGcd};
ghost use Rattle.pt_atoms.specs.Sums.{IsGcdOf};
ghost use Rattle.pt_atoms.specs.Numbers.{IsCoefficient};
ghost use Rattle.pt_atoms.specs.Atoms.{residue, quotient, sum_at, half_modulo, half, is_even};

use crate::coefficients::Coefficients;
use pt_digits::NoMemory;
use std::alloc::{AllocError, Global};

/// The greatest common divisor of two numbers, by Euclid's algorithm; of 0 and 0 it is 0.
pub fn gcd(a: u64, b: u64) -> u64
    ensures { IsGcd a b result }
{
    let mut x = a;
    let mut y = b;
    while y != 0 {
        let rest = x % y;
        x = y;
        y = rest;
    }
    x
}

/// The greatest common divisor of a number and the coefficients.
pub fn gcd_of(first: u64, coefficients: &[i64]) -> u64
    ensures gcd { IsGcdOf result (pos first ∷ coefficients.now) }
    ensures within { AllByRecursion IsCoefficient coefficients.now }
{
    let mut g = first;
    for a in coefficients {
        g = gcd(g, a.unsigned_abs());
    }
    g
}

/// The remainder of the number modulo m, from 0 on.
pub fn residue_of(a: i64, m: u64) -> i64
    requires above { 0 < m }
    requires below { m < 2 ^ 63 }
    ensures { result ≡ residue m a }
{
    a.rem_euclid(m as i64)
}

/// The numbers modulo m.
fn each_residue(alloc: Global, numbers: &[i64], m: u64) -> Result<Vec<i64>, AllocError>
    requires above { 0 < m }
    requires below { m < 2 ^ 63 }
    ensures { IfOk result (λ v. v.items ≡ map (residue m) numbers.now) }
{
    numbers.iter().map(|a| residue_of(*a, m)).collect(alloc)
}

/// The coefficients modulo m.
pub fn residues_of(alloc: Global, coefficients: &[i64], m: u64) -> Result<Coefficients, NoMemory>
    requires above { 0 < m }
    requires below { m < 2 ^ 63 }
    ensures { IfOk result (λ c. c ≡ map (residue m) coefficients.now) }
{
    let items = each_residue(alloc, coefficients, m)?;
    Ok(Coefficients::new(items))
}

/// The number divided by g and rounded down.
pub fn quotient_of(a: i64, g: u64) -> i64
    requires { 0 < g }
    ensures { result ≡ quotient g a }
{
    (i128::from(a)).div_euclid(i128::from(g)) as i64
}

/// The numbers divided by g and rounded down.
fn each_quotient(alloc: Global, numbers: &[i64], g: u64) -> Result<Vec<i64>, AllocError>
    requires { 0 < g }
    ensures { IfOk result (λ v. v.items ≡ map (quotient g) numbers.now) }
{
    numbers.iter().map(|a| quotient_of(*a, g)).collect(alloc)
}

/// The coefficients divided by g.
pub fn quotients_of(alloc: Global, coefficients: &[i64], g: u64) -> Result<Coefficients, NoMemory>
    requires { 0 < g }
    ensures { IfOk result (λ c. c ≡ map (quotient g) coefficients.now) }
{
    let items = each_quotient(alloc, coefficients, g)?;
    Ok(Coefficients::new(items))
}

/// The sum and, where the digit is 1, the coefficient.
fn with_digit(sum: i128, a: i64, digit: u16) -> i128
    requires bit { digit < 2 }
    requires room { unsigned_abs sum ≤ 2 ^ 67 }
    ensures value { result ≡ sum +ℤ a *ℤ pos digit }
    ensures bound { unsigned_abs result ≤ unsigned_abs sum + 2 ^ 63 }
{
    if digit == 1 { sum + i128::from(a) } else { sum }
}

/// The sum of the coefficients whose track has the digit 1 in the letter.
pub fn digit_sum(coefficients: &[i64], letter: u16) -> i128
    requires { length coefficients.now ≤ 10 }
    ensures value { result ≡ sum_at coefficients.now letter }
    ensures bound { unsigned_abs result ≤ length coefficients.now * 2 ^ 63 }
{
    let mut sum: i128 = 0;
    let mut rest = letter;
    for a in coefficients {
        sum = with_digit(sum, *a, rest % 2);
        rest /= 2;
    }
    sum
}

/// Whether the number is even.
pub fn is_even_number(r: i128) -> bool
    ensures { result ≡ is_even r }
{
    r.unsigned_abs() % 2 == 0
}

/// Half of the number, rounded down.
pub fn half_of(r: i128) -> i128
    ensures { result ≡ half r }
{
    r.div_euclid(2)
}

/// The remainder of a wide number modulo m.
pub fn wide_residue_of(r: i128, m: u64) -> u64
    requires { 0 < m }
    ensures value { pos result ≡ residue m r }
    ensures below { result < m }
{
    r.rem_euclid(i128::from(m)) as u64
}

/// The residue modulo an odd number m whose double is r modulo m.
pub fn half_modulo_of(r: i128, m: u64) -> u64
    requires odd { m % 2 ≡ 1 }
    requires below { m < 2 ^ 63 }
    ensures { pos result ≡ half_modulo m r }
{
    let rest = wide_residue_of(r, m);
    if rest % 2 == 0 {
        rest / 2
    } else {
        (rest + m) / 2
    }
}
