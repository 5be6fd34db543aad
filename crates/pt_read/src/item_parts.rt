// Parts of items, and their rules.
ghost use Rattle.std.specs.Prelude.{◌≡◌};
ghost use Rattle.pt_grammar.specs.Exprs.{symbol_of, items_of, name_of, items_or_none};
ghost use Rattle.pt_read.specs.Commands.{no_sorts, success_option, success_value};
ghost use Rattle.pt_terms.specs.Gives.{Says};

use pt_grammar::exprs::{is_symbol, items_in, keyword, place};
use pt_syntax::{ReadKind, ReadRefusal, SExpr};
use pt_terms::refusals::refused;

/// That a list of sorts is empty.
pub(crate) fn without_sorts(list: &SExpr) -> Result<(), ReadRefusal>
    ensures { Says (λ _. tt {0}) result (no_sorts list.now) }
{
    if items_in(list).is_empty() {
        Ok(())
    } else {
        Err(refused(ReadKind::Unsupported, place(list)))
    }
}

/// The value true or false.
fn truth_named(e: &SExpr) -> Option<bool>
    ensures { result ≡ success_value (name_of (symbol_of e.now)) }
{
    if is_symbol(e, b"true") {
        Some(true)
    } else if is_symbol(e, b"false") {
        Some(false)
    } else {
        None
    }
}

/// The value of the option `:print-success`, where it is true or false.
pub(crate) fn success_in(key: &SExpr, values: &[SExpr]) -> Option<bool>
    ensures { result ≡ success_option key.now values.now }
{
    match values {
        [] => None,
        [value, ..] => match keyword(key) {
            Some(name) if name == b"print-success".as_slice() => truth_named(value),
            _ => None,
        },
    }
}
