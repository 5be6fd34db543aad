//! Texts of replies: each function adds one to what is written.
ghost use Rattle.std.specs.Prelude.{◌≡◌, ◌<◌, ◌++◌, IfOk, OnOk, codes, decimal, map};
ghost use Rattle.std.specs.List.{list_all, join_with_byte};
ghost use Rattle.pt_syntax.specs.Bytes.{is_symbol_byte};
ghost use Rattle.pt_formula.specs.Truth.{valuation};
ghost use Rattle.pt_query.specs.Queries.{vectors_of};
ghost use Rattle.pt_script.specs.Texts.{integer, value, truth_word, sort_name, symbol, is_simple, error_line, line, truth, value_pair, value_pairs, model_line, model, read_text, refusal_line, fault_line, too_long, list, vectors};

use crate::fault::SessionFault;
use pt_digits::NoMemory;
use pt_formula::Position;
use pt_read::{Constant, ReadKind, ReadRefusal, Sort};
use pt_syntax::{is_decimal_digit, is_in_symbol};
use std::alloc::Global;

/// A negative number `n` is written `(- n)`.
pub(crate) fn write_integer(alloc: Global, out: &mut Vec<u8>, x: i128) -> Result<(), NoMemory>
    ensures { OnOk result (out.new.items ≡ out.old.items ++ integer x) }
{
    let size = x.unsigned_abs();
    if x < 0 {
        let text = format!(in alloc; "(- {size})")?;
        out.extend_from_slice(text.as_bytes())?;
    } else {
        let text = format!(in alloc; "{size}")?;
        out.extend_from_slice(text.as_bytes())?;
    }
    Ok(())
}

/// `true` or `false`.
fn write_truth_word(out: &mut Vec<u8>, value: bool) -> Result<(), NoMemory>
    ensures { OnOk result (out.new.items ≡ out.old.items ++ truth_word value) }
{
    if value {
        out.extend_from_slice(b"true")?;
    } else {
        out.extend_from_slice(b"false")?;
    }
    Ok(())
}

/// The value of a variable of this sort: an odd one of sort Bool is true.
fn write_value(alloc: Global, out: &mut Vec<u8>, sort: Sort, x: i128) -> Result<(), NoMemory>
    ensures { OnOk result (out.new.items ≡ out.old.items ++ value sort x) }
{
    match sort {
        Sort::Int => write_integer(alloc, out, x),
        Sort::Bool => write_truth_word(out, x.unsigned_abs() % 2 == 1),
    }
}

/// The name of a sort.
fn name_of_sort(sort: Sort) -> &'static [u8]
    ensures { result.now ≡ sort_name sort }
{
    match sort {
        Sort::Int => b"Int",
        Sort::Bool => b"Bool",
    }
}

/// A text and the end of its line.
pub(crate) fn write_line(out: &mut Vec<u8>, text: &[u8]) -> Result<(), NoMemory>
    ensures { OnOk result (out.new.items ≡ out.old.items ++ line text.now) }
{
    out.extend_from_slice(text)?;
    out.push(10)?;
    Ok(())
}

/// A number on a line.
pub(crate) fn write_number(alloc: Global, out: &mut Vec<u8>, n: u64) -> Result<(), NoMemory>
    ensures { OnOk result (out.new.items ≡ out.old.items ++ line (decimal n)) }
{
    let text = format!(in alloc; "{n}")?;
    write_line(out, text.as_bytes())
}

/// The line `true` or `false`.
pub(crate) fn write_truth(out: &mut Vec<u8>, value: bool) -> Result<(), NoMemory>
    ensures { OnOk result (out.new.items ≡ out.old.items ++ truth value) }
{
    if value {
        write_line(out, b"true")
    } else {
        write_line(out, b"false")
    }
}

/// An error line.
pub(crate) fn write_error(
    alloc: Global,
    out: &mut Vec<u8>,
    at: Position,
    text: &[u8],
) -> Result<(), NoMemory>
    ensures { OnOk result (out.new.items ≡ out.old.items ++ error_line at text.now) }
{
    let line = at.line;
    let column = at.column;
    let start = format!(in alloc; "(error \"{line}:{column}: ")?;
    out.extend_from_slice(start.as_bytes())?;
    out.extend_from_slice(text)?;
    out.extend_from_slice(b"\")\n")?;
    Ok(())
}

fn are_in_symbol(name: &[u8]) -> bool
    ensures { result ≡ list_all is_symbol_byte name.now }
{
    name.iter().all(|b| is_in_symbol(*b))
}

fn is_simple_name(name: &[u8]) -> bool
    ensures { result ≡ is_simple name.now }
{
    match name {
        [] => false,
        [first, ..] => !is_decimal_digit(*first) && are_in_symbol(name),
    }
}

/// A name, between bars where it is no simple symbol.
pub(crate) fn write_symbol(out: &mut Vec<u8>, name: &[u8]) -> Result<(), NoMemory>
    ensures { OnOk result (out.new.items ≡ out.old.items ++ symbol name.now) }
{
    if is_simple_name(name) {
        out.extend_from_slice(name)?;
    } else {
        out.push(124)?;
        out.extend_from_slice(name)?;
        out.push(124)?;
    }
    Ok(())
}

/// The value of a variable, `values` those of `variables` in order; 0 for others.
fn value_of(variables: &[u32], values: &[i128], variable: u32) -> i128
    ensures { result ≡ valuation variables.now values.now variable }
{
    match variables {
        [] => 0,
        [first, rest @ ..] => match values {
            [] => 0,
            [x, others @ ..] => {
                if variable == *first {
                    *x
                } else {
                    value_of(rest, others, variable)
                }
            }
        },
    }
}

/// A constant and its value, `(x v)`.
fn write_pair(
    alloc: Global,
    out: &mut Vec<u8>,
    variables: &[u32],
    values: &[i128],
    constant: &Constant,
) -> Result<(), NoMemory>
    ensures { OnOk result (out.new.items ≡ out.old.items ++ value_pair (valuation variables.now values.now) constant.now) }
{
    out.push(40)?;
    write_symbol(out, constant.name.as_slice())?;
    out.push(32)?;
    let x = value_of(variables, values, constant.variable);
    write_value(alloc, out, constant.sort, x)?;
    out.push(41)?;
    Ok(())
}

/// Constants and their values, a blank between each two.
fn write_joined_pairs(
    alloc: Global,
    out: &mut Vec<u8>,
    variables: &[u32],
    values: &[i128],
    constants: &[Constant],
) -> Result<(), NoMemory>
    ensures { OnOk result (out.new.items ≡ out.old.items ++ join_with_byte 32 (map (value_pair (valuation variables.now values.now)) constants.now)) }
{
    match constants {
        [] => Ok(()),
        [first, rest @ ..] => {
            write_pair(alloc, out, variables, values, first)?;
            for constant in rest {
                out.push(32)?;
                write_pair(alloc, out, variables, values, constant)?;
            }
            Ok(())
        }
    }
}

/// The line of constants and their values, `((x v) (y w))`.
pub(crate) fn write_pairs(
    alloc: Global,
    out: &mut Vec<u8>,
    variables: &[u32],
    values: &[i128],
    constants: &[Constant],
) -> Result<(), NoMemory>
    ensures { OnOk result (out.new.items ≡ out.old.items ++ value_pairs (valuation variables.now values.now) constants.now) }
{
    out.push(40)?;
    write_joined_pairs(alloc, out, variables, values, constants)?;
    write_line(out, b")")?;
    Ok(())
}

/// The line of a constant in a model.
fn write_model_line(
    alloc: Global,
    out: &mut Vec<u8>,
    variables: &[u32],
    values: &[i128],
    constant: &Constant,
) -> Result<(), NoMemory>
    ensures { OnOk result (out.new.items ≡ out.old.items ++ model_line (valuation variables.now values.now) constant.now) }
{
    out.extend_from_slice(b"  (define-fun ")?;
    write_symbol(out, constant.name.as_slice())?;
    out.extend_from_slice(b" () ")?;
    out.extend_from_slice(name_of_sort(constant.sort))?;
    out.push(32)?;
    let x = value_of(variables, values, constant.variable);
    write_value(alloc, out, constant.sort, x)?;
    write_line(out, b")")?;
    Ok(())
}

/// A model: each constant on a line of its own.
pub(crate) fn write_model(
    alloc: Global,
    out: &mut Vec<u8>,
    variables: &[u32],
    values: &[i128],
    constants: &[Constant],
) -> Result<(), NoMemory>
    ensures { OnOk result (out.new.items ≡ out.old.items ++ model (valuation variables.now values.now) constants.now) }
{
    write_line(out, b"(")?;
    for constant in constants {
        write_model_line(alloc, out, variables, values, constant)?;
    }
    write_line(out, b")")
}

/// The text of a refusal to read; want of memory has none.
fn text_of(kind: ReadKind) -> &'static [u8]
    ensures { result.now ≡ read_text kind }
{
    match kind {
        ReadKind::Syntax => b"syntax",
        ReadKind::Unknown => b"unknown symbol",
        ReadKind::Sort => b"sort or number of arguments",
        ReadKind::Nonlinear => b"nonlinear",
        ReadKind::Coefficient => b"coefficient outside 64 bits",
        ReadKind::Unsupported => b"unsupported",
        ReadKind::Redeclared => b"name already in use",
        ReadKind::Depth => b"nesting over 256",
        ReadKind::Tracks => b"more than 10 variables",
        ReadKind::Nodes => b"more than 65536 nodes",
        ReadKind::Logic => b"logic not supported",
        ReadKind::NoMemory => b"",
    }
}

/// Adds the error line of a refusal to read to what is written. Want of memory is written with an empty text.
pub fn write_refusal(alloc: Global, out: &mut Vec<u8>, refusal: ReadRefusal) -> Result<(), NoMemory>
    ensures { OnOk result (out.new.items ≡ out.old.items ++ refusal_line refusal) }
{
    write_error(alloc, out, refusal.position, text_of(refusal.kind))
}

/// Adds the error line of a fault of a session with this state bound to what is written. A full shard and want of memory
/// have none: nothing is added.
pub fn write_fault(
    alloc: Global,
    out: &mut Vec<u8>,
    bound: u32,
    fault: SessionFault,
) -> Result<(), NoMemory>
    ensures { OnOk result (out.new.items ≡ out.old.items ++ fault_line bound fault) }
{
    match fault {
        SessionFault::States { position } => {
            let text = format!(in alloc; "state bound {bound} exceeded")?;
            write_error(alloc, out, position, text.as_bytes())
        }
        SessionFault::NoModel { position } => write_error(alloc, out, position, b"no model"),
        SessionFault::WideValue { position, letters } => {
            let text = format!(in alloc; "value needs {letters} digits")?;
            write_error(alloc, out, position, text.as_bytes())
        }
        SessionFault::PopTooFar { position } => {
            write_error(alloc, out, position, b"pop beyond the first level")
        }
        SessionFault::Full { .. } | SessionFault::NoMemory => Ok(()),
    }
}

/// Adds the error line of a script that is too long to what is written.
pub fn write_too_long(alloc: Global, out: &mut Vec<u8>) -> Result<(), NoMemory>
    ensures { OnOk result (out.new.items ≡ out.old.items ++ too_long) }
{
    let start = Position { line: 1, column: 1 };
    write_error(alloc, out, start, b"script over 4194304 bytes")
}

/// Integers, a blank between each two.
fn write_joined_integers(alloc: Global, out: &mut Vec<u8>, xs: &[i128]) -> Result<(), NoMemory>
    ensures { OnOk result (out.new.items ≡ out.old.items ++ join_with_byte 32 (map integer xs.now)) }
{
    match xs {
        [] => Ok(()),
        [first, rest @ ..] => {
            write_integer(alloc, out, *first)?;
            for x in rest {
                out.push(32)?;
                write_integer(alloc, out, *x)?;
            }
            Ok(())
        }
    }
}

/// A vector, `(1 2)`.
fn write_vector(alloc: Global, out: &mut Vec<u8>, xs: &[i128]) -> Result<(), NoMemory>
    ensures { OnOk result (out.new.items ≡ out.old.items ++ list (map integer xs.now)) }
{
    out.push(40)?;
    write_joined_integers(alloc, out, xs)?;
    out.push(41)?;
    Ok(())
}

/// Vectors, a blank between each two.
fn write_joined_vectors(alloc: Global, out: &mut Vec<u8>, zs: &[Vec<i128>]) -> Result<(), NoMemory>
    ensures { OnOk result (out.new.items ≡ out.old.items ++ join_with_byte 32 (map (λ z. list (map integer z)) (vectors_of zs.now))) }
{
    match zs {
        [] => Ok(()),
        [first, rest @ ..] => {
            write_vector(alloc, out, first.as_slice())?;
            for z in rest {
                out.push(32)?;
                write_vector(alloc, out, z.as_slice())?;
            }
            Ok(())
        }
    }
}

/// The line of vectors, `((1 2) (3 4))`.
pub(crate) fn write_vectors(
    alloc: Global,
    out: &mut Vec<u8>,
    zs: &[Vec<i128>],
) -> Result<(), NoMemory>
    ensures { OnOk result (out.new.items ≡ out.old.items ++ vectors (vectors_of zs.now)) }
{
    out.push(40)?;
    write_joined_vectors(alloc, out, zs)?;
    write_line(out, b")")?;
    Ok(())
}
