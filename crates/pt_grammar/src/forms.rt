// Forms of binders and annotations, checked before any part is elaborated.
ghost use Rattle.std.specs.Prelude.{◌≡◌, false};
ghost use Rattle.std.specs.List.{list_all};
ghost use Rattle.pt_grammar.specs.Exprs.{place_of, items_of};
ghost use Rattle.pt_grammar.specs.Forms.{is_sort, is_binding, is_variable, none_faulty, list_fault, body_fault, let_fault, variables_fault, quantifier_fault, attributes_fault, annotation_fault};

use crate::exprs::{items, keyword, place, symbol};
use pt_syntax::{Position, SExpr};

/// A symbol or a list.
pub(crate) fn is_sort_form(e: &SExpr) -> bool
    ensures { result ≡ is_sort e.now }
{
    symbol(e).is_some() || items(e).is_some()
}

/// A symbol and a term.
fn is_binding_form(e: &SExpr) -> bool
    ensures { result ≡ is_binding e.now }
{
    match items(e) {
        Some([name, _]) => symbol(name).is_some(),
        _ => false,
    }
}

/// A symbol and a sort.
pub(crate) fn is_variable_form(e: &SExpr) -> bool
    ensures { result ≡ is_variable e.now }
{
    match items(e) {
        Some([name, sort]) => symbol(name).is_some() && is_sort_form(sort),
        _ => false,
    }
}

/// The place of the first that is no binding.
fn first_other(es: &[SExpr]) -> Option<Position>
    ensures { result ≡ none_faulty is_binding es.now }
{
    for e in es {
        if !is_binding_form(e) {
            return Some(place(e));
        }
    }
    None
}

/// Whether all are variables.
pub(crate) fn are_variables(es: &[SExpr]) -> bool
    ensures { result ≡ list_all is_variable es.now }
{
    for e in es {
        if !is_variable_form(e) {
            return false;
        }
    }
    true
}

fn fault_of_bindings(list: &SExpr) -> Option<Position>
    ensures { result ≡ list_fault is_binding (place_of list.now) (items_of list.now) }
{
    match items(list) {
        None | Some([]) => Some(place(list)),
        Some(es) => first_other(es),
    }
}

fn fault_of_variables(list: &SExpr) -> Option<Position>
    ensures { result ≡ variables_fault (place_of list.now) (items_of list.now) }
{
    match items(list) {
        None | Some([]) => Some(place(list)),
        Some(es) => {
            if are_variables(es) {
                None
            } else {
                Some(place(list))
            }
        }
    }
}

fn fault_of_body(at: Position, rest: &[SExpr]) -> Option<Position>
    ensures { result ≡ body_fault at rest.now }
{
    match rest {
        [] => Some(at),
        [_] => None,
        [_, extra, ..] => Some(place(extra)),
    }
}

/// The first fault in the form of a `let` with these items.
pub fn fault_of_let(at: Position, items: &[SExpr]) -> Option<Position>
    ensures { result ≡ let_fault at items.now }
{
    match items {
        [] => Some(at),
        [list, rest @ ..] => match fault_of_bindings(list) {
            Some(fault) => Some(fault),
            None => fault_of_body(at, rest),
        },
    }
}

/// The first fault in the form of a quantifier with these items.
pub fn fault_of_quantifier(at: Position, items: &[SExpr]) -> Option<Position>
    ensures { result ≡ quantifier_fault at items.now }
{
    match items {
        [] => Some(at),
        [list, rest @ ..] => match fault_of_variables(list) {
            Some(fault) => Some(fault),
            None => fault_of_body(at, rest),
        },
    }
}

fn fault_of_attributes(es: &[SExpr]) -> Option<Position>
    ensures { result ≡ attributes_fault false es.now }
{
    let mut value_may_follow = false;
    for e in es {
        if keyword(e).is_some() {
            value_may_follow = true;
        } else if value_may_follow {
            value_may_follow = false;
        } else {
            return Some(place(e));
        }
    }
    None
}

/// The first fault in the form of an annotation with these items.
pub fn fault_of_annotation(at: Position, items: &[SExpr]) -> Option<Position>
    ensures { result ≡ annotation_fault at items.now }
{
    match items {
        [] | [_] => Some(at),
        [_, attributes @ ..] => fault_of_attributes(attributes),
    }
}
