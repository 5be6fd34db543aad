// Forms of the items of a command, checked before any item is elaborated.
ghost use Rattle.std.specs.Prelude.{◌≡◌, map};
ghost use Rattle.std.specs.List.{list_all};
ghost use Rattle.pt_grammar.specs.Exprs.{items_of};
ghost use Rattle.pt_grammar.specs.Forms.{is_sort};
ghost use Rattle.pt_grammar.specs.ItemForms.{has_form, is_negated, more_fault, items_fault};
ghost use Rattle.pt_grammar.specs.declared.item_forms.More.TheVariants.{Many};

use crate::exprs::{is_truth, items, keyword, numeral, place, symbol, text};
use crate::forms::{are_variables, is_sort_form};
use crate::words::is;
use pt_syntax::{Position, SExpr};

/// A form of an item. Lists are of sorts, of parameters, or of any items, one at least.
#[derive(Clone, Copy, Debug, PartialEq, Eq)]
pub enum ItemForm {
    Symbol,
    Numeral,
    /// A component of a vector: an integer or a truth value.
    Component,
    Sort,
    Term,
    Text,
    SortList,
    ParameterList,
    ItemList,
    Keyword,
    /// Anything but a keyword.
    Value,
}

/// What may stand behind the items that have to: nothing, one item at most, or any number.
#[derive(Clone, Copy, Debug, PartialEq, Eq)]
pub enum More {
    Nothing,
    Maybe(ItemForm),
    Many(ItemForm),
}

/// A list of a minus and a numeral.
fn is_negated_numeral(e: &SExpr) -> bool
    ensures { result ≡ is_negated (items_of e.now) }
{
    match items(e) {
        Some([minus, n]) => match symbol(minus) {
            Some(name) => is(name, b"-") && numeral(n).is_some(),
            None => false,
        },
        _ => false,
    }
}

/// Whether all are sorts.
fn are_sorts(es: &[SExpr]) -> bool
    ensures { result ≡ list_all is_sort es.now }
{
    for e in es {
        if !is_sort_form(e) {
            return false;
        }
    }
    true
}

/// Whether an item has this form.
fn has_this_form(form: ItemForm, e: &SExpr) -> bool
    ensures { result ≡ has_form form e.now }
{
    match form {
        ItemForm::Symbol => symbol(e).is_some(),
        ItemForm::Numeral => numeral(e).is_some(),
        ItemForm::Component => numeral(e).is_some() || is_negated_numeral(e) || is_truth(e),
        ItemForm::Sort => is_sort_form(e),
        ItemForm::Term => true,
        ItemForm::Text => text(e).is_some(),
        ItemForm::SortList => match items(e) {
            Some(es) => are_sorts(es),
            None => false,
        },
        ItemForm::ParameterList => match items(e) {
            Some(es) => are_variables(es),
            None => false,
        },
        ItemForm::ItemList => match items(e) {
            Some(es) => !es.is_empty(),
            None => false,
        },
        ItemForm::Keyword => keyword(e).is_some(),
        ItemForm::Value => keyword(e).is_none(),
    }
}

/// The place of the first item that has not this form.
fn fault_of_many(form: ItemForm, items: &[SExpr]) -> Option<Position>
    ensures { result ≡ more_fault (Many form) items.now }
{
    for e in items {
        if !has_this_form(form, e) {
            return Some(place(e));
        }
    }
    None
}

/// The first fault behind the items that have to stand.
fn fault_of_more(more: More, items: &[SExpr]) -> Option<Position>
    ensures { result ≡ more_fault more items.now }
{
    match items {
        [] => None,
        [e, rest @ ..] => match more {
            More::Nothing => Some(place(e)),
            More::Maybe(form) => {
                if !has_this_form(form, e) {
                    return Some(place(e));
                }
                match rest {
                    [] => None,
                    [extra, ..] => Some(place(extra)),
                }
            }
            More::Many(form) => fault_of_many(form, items),
        },
    }
}

/// The place of the first item of another form, or the command's place where an item is missing. One pass over the items.
pub fn fault_of_items(
    at: Position,
    forms: &[ItemForm],
    more: More,
    items: &[SExpr],
) -> Option<Position>
    ensures { result ≡ items_fault at forms.now more items.now }
{
    let mut left = items;
    for form in forms {
        match left {
            [] => return Some(at),
            [e, rest @ ..] => {
                if !has_this_form(*form, e) {
                    return Some(place(e));
                }
                left = rest;
            }
        }
    }
    fault_of_more(more, left)
}
