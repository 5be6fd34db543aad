// Numerals and integers of commands.
ghost use Rattle.std.specs.Prelude.{◌≡◌, ◌^◌, ◌<◌, pos, neg_ℤ, length, IfOk, option_map};
ghost use Rattle.pt_read.specs.Commands.{number, number_or_one, integer, negated, component, components};
ghost use Rattle.pt_terms.specs.Gives.{Says};

use crate::integers::Integers;
use pt_grammar::exprs::{is_symbol, is_truth, items, numeral, place};
use pt_syntax::{ReadKind, ReadRefusal, SExpr};
use pt_terms::meaning::Sort;
use pt_terms::numerals::number_at;
use pt_terms::refusals::refused;
use std::alloc::Global;

/// The number of a numeral.
pub(crate) fn number(e: &SExpr) -> Result<u64, ReadRefusal>
    ensures says { Says (λ n. n) result (number e.now) }
    ensures small { IfOk result (λ n. n < 2 ^ 63) }
{
    match numeral(e) {
        Some(digits) => number_at(place(e), digits),
        None => number_at(place(e), &[]),
    }
}

/// The number of the first item, or one without items.
pub(crate) fn number_or_one(items: &[SExpr]) -> Result<u64, ReadRefusal>
    ensures { Says (λ n. n) result (number_or_one items.now) }
{
    match items {
        [] => Ok(1),
        [e, ..] => number(e),
    }
}

/// The integer that a numeral stands for, or a minus and a numeral.
fn integer(e: &SExpr) -> Result<i128, ReadRefusal>
    ensures { Says (λ z. z) result (integer e.now) }
{
    match items(e) {
        Some([_, n]) => {
            let magnitude = number(n)?;
            Ok(-i128::from(magnitude))
        }
        _ => {
            let magnitude = number(e)?;
            Ok(i128::from(magnitude))
        }
    }
}

/// The integer that an item of this sort stands for: 1 for `true`, 0 for `false`.
fn component(sort: Sort, e: &SExpr) -> Result<i128, ReadRefusal>
    ensures { Says (λ z. z) result (component sort e.now) }
{
    match sort {
        Sort::Int => {
            if is_truth(e) {
                return Err(refused(ReadKind::Sort, place(e)));
            }
            integer(e)
        }
        Sort::Bool => {
            if !is_truth(e) {
                return Err(refused(ReadKind::Sort, place(e)));
            }
            if is_symbol(e, b"true") { Ok(1) } else { Ok(0) }
        }
    }
}

/// The integers that items of these sorts stand for, in order.
pub(crate) fn components(
    alloc: Global,
    sorts: &[Sort],
    es: &[SExpr],
) -> Result<Integers, ReadRefusal>
    requires { length sorts.now ≡ length es.now }
    ensures { Says (λ v. v) result (components sorts.now es.now) }
{
    let mut found = Vec::new(alloc);
    for i in 0..es.len() {
        match component(sorts[i], &es[i]) {
            Ok(z) => found.push(z)?,
            Err(refusal) => return Err(refusal),
        }
    }
    Ok(Integers::new(found))
}
