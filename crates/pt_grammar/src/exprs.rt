// Parts of nested lists.
ghost use Rattle.std.specs.Prelude.{◌≡◌, option_map, bytes_eq};
ghost use Rattle.pt_grammar.specs.Exprs.{place_of, symbol_of, numeral_of, keyword_of, text_of, items_of, name_of, items_or_none};
ghost use Rattle.pt_grammar.specs.Words.{is_truth_name};

use pt_syntax::{Leaf, Position, SExpr};

/// The place of the first byte.
#[tactic(auto, using(crate::proofs::Layers::parts))]
pub fn place(e: &SExpr) -> Position
    ensures { result ≡ place_of e.now }
{
    match e {
        SExpr::Leaf(_, position) | SExpr::List(_, position) => *position,
    }
}

/// The content of a symbol.
#[tactic(auto, using(crate::proofs::Layers::parts))]
pub fn symbol(e: &SExpr) -> Option<&[u8]>
    ensures { option_map (λ s. s.now) result ≡ symbol_of e.now }
{
    match e {
        SExpr::Leaf(Leaf::Symbol(name), _) => Some(name.as_slice()),
        _ => None,
    }
}

/// The digits of a numeral.
#[tactic(auto, using(crate::proofs::Layers::parts))]
pub fn numeral(e: &SExpr) -> Option<&[u8]>
    ensures { option_map (λ s. s.now) result ≡ numeral_of e.now }
{
    match e {
        SExpr::Leaf(Leaf::Numeral(digits), _) => Some(digits.as_slice()),
        _ => None,
    }
}

/// The content of a keyword.
#[tactic(auto, using(crate::proofs::Layers::parts))]
pub fn keyword(e: &SExpr) -> Option<&[u8]>
    ensures { option_map (λ s. s.now) result ≡ keyword_of e.now }
{
    match e {
        SExpr::Leaf(Leaf::Keyword(name), _) => Some(name.as_slice()),
        _ => None,
    }
}

/// A string literal as it is written.
#[tactic(auto, using(crate::proofs::Layers::parts))]
pub fn text(e: &SExpr) -> Option<&[u8]>
    ensures { option_map (λ s. s.now) result ≡ text_of e.now }
{
    match e {
        SExpr::Leaf(Leaf::Text(literal), _) => Some(literal.as_slice()),
        _ => None,
    }
}

/// The items of a list.
#[tactic(auto, using(crate::proofs::Layers::parts))]
pub fn items(e: &SExpr) -> Option<&[SExpr]>
    ensures { option_map (λ s. s.now) result ≡ items_of e.now }
{
    match e {
        SExpr::List(items, _) => Some(items.as_slice()),
        SExpr::Leaf(..) => None,
    }
}

/// The content of a symbol, and nothing of any other expression.
pub fn name_in(e: &SExpr) -> &[u8]
    ensures { result.now ≡ name_of (symbol_of e.now) }
{
    match symbol(e) {
        Some(name) => name,
        None => &[],
    }
}

/// The items of a list, and none of any other expression.
pub fn items_in(e: &SExpr) -> &[SExpr]
    ensures { result.now ≡ items_or_none (items_of e.now) }
{
    match items(e) {
        Some(es) => es,
        None => &[],
    }
}

/// Whether an expression is this symbol.
pub fn is_symbol(e: &SExpr, word: &[u8]) -> bool
    ensures { result ≡ bytes_eq (name_of (symbol_of e.now)) word.now }
{
    name_in(e) == word
}

/// Whether an expression is `true` or `false`.
pub fn is_truth(e: &SExpr) -> bool
    ensures { result ≡ is_truth_name (name_of (symbol_of e.now)) }
{
    is_symbol(e, b"true") || is_symbol(e, b"false")
}
