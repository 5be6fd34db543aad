// The text of the script.
ghost use Rattle.std.specs.Prelude.{◌≡◌, ◌++◌, IfOk, OnOk, decimal};
ghost use Rattle.pt_drill.specs.Drill.{definition, questions, drill_text};

use crate::draws::{Draws, Group};
use pt_digits::NoMemory;
use std::alloc::Global;

/// The script of mode drill: it declares two numbers, and for each of `size` groups it draws the coefficients of a predicate
/// with the generator that starts at `seed`, asks for the number of its states, and whether it holds of the two numbers where
/// the first is not negative. The seed is to be below 2^31 and the size from 1 to 4,096, so that no command is refused under
/// the default state bound.
///
/// The time is linear in the size.
pub fn drill_script(alloc: Global, seed: u32, size: u32) -> Result<Vec<u8>, NoMemory>
    ensures { IfOk result (λ text. text.items ≡ drill_text seed size) }
{
    let mut text = Vec::new(alloc);
    text.extend_from_slice(b"(declare-const p Int)\n(declare-const q Int)\n")?;
    let mut draws = Draws { state: seed };
    for i in 0..size {
        let group = draws.group();
        write_definition(alloc, &mut text, i, group)?;
        write_questions(alloc, &mut text, i)?;
    }
    Ok(text)
}

/// The definition of a predicate.
fn write_definition(alloc: Global, out: &mut Vec<u8>, i: u32, group: Group) -> Result<(), NoMemory>
    ensures { OnOk result (out.new.items ≡ out.old.items ++ definition i group) }
{
    write_number(alloc, out, b"(define-fun g", i)?;
    write_number(
        alloc,
        out,
        b" ((x Int) (y Int)) Bool (and (and (<= (+ (* ",
        group.a,
    )?;
    write_number(alloc, out, b" x) (* ", group.b)?;
    write_number(alloc, out, b" y)) ", group.c)?;
    write_number(alloc, out, b") ((_ divisible ", group.m)?;
    write_number(alloc, out, b") (+ x (* ", group.d)?;
    write_number(alloc, out, b" y)))) (= (- x y) ", group.e)?;
    out.extend_from_slice(b")))\n")?;
    Ok(())
}

/// What is asked of a predicate.
fn write_questions(alloc: Global, out: &mut Vec<u8>, i: u32) -> Result<(), NoMemory>
    ensures { OnOk result (out.new.items ≡ out.old.items ++ questions i) }
{
    write_number(alloc, out, b"(set-states g", i)?;
    write_number(alloc, out, b")\n(push 1)\n(assert (and (g", i)?;
    out.extend_from_slice(b" p q) (>= p 0)))\n(check-sat)\n(pop 1)\n")?;
    Ok(())
}

/// A number, and what stands before it.
pub(crate) fn write_number(
    alloc: Global,
    out: &mut Vec<u8>,
    before: &[u8],
    n: u32,
) -> Result<(), NoMemory>
    ensures { OnOk result (out.new.items ≡ out.old.items ++ before.now ++ decimal n) }
{
    let digits = format!(in alloc; "{n}")?;
    out.extend_from_slice(before)?;
    out.extend_from_slice(digits.as_bytes())?;
    Ok(())
}
