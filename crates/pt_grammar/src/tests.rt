//! Lists of texts: their parts, and the places of their faults.
use crate::exprs::{is_symbol, items, items_in, keyword, name_in, numeral, place, symbol, text};
use crate::forms::{fault_of_annotation, fault_of_let, fault_of_quantifier};
use crate::item_forms::fault_of_items;
use crate::verbs::row_of;
use crate::words::{Head, head_of, is, is_reserved_word};
use pt_syntax::{ListReader, Position, SExpr, TopList};
use std::alloc::{AllocError, Global};
use std::test::Fail;

const LIMIT: usize = 4_194_304;

fn write_place(alloc: Global, out: &mut Vec<u8>, at: Position) -> Result<(), AllocError> {
    let place = format!(in alloc; " {}:{}", at.line, at.column)?;
    out.extend_from_slice(place.as_bytes())
}

fn write_word(out: &mut Vec<u8>, kind: &[u8], word: &[u8]) -> Result<(), AllocError> {
    out.extend_from_slice(b" ")?;
    out.extend_from_slice(kind)?;
    out.extend_from_slice(b" ")?;
    out.extend_from_slice(word)
}

/// The first list of a text.
fn first_list(alloc: Global, text: &[u8]) -> Option<TopList> {
    if text.len() > LIMIT {
        return None;
    }
    match ListReader::new(text).next_list(alloc) {
        Ok(found) => found,
        Err(_) => None,
    }
}

/// The first fault of a binder, of an annotation or of a command.
fn fault_of(at: Position, first: &SExpr, rest: &[SExpr]) -> Option<Position> {
    match head_of(name_in(first)) {
        Head::Let => fault_of_let(at, rest),
        Head::Exists | Head::Forall => fault_of_quantifier(at, rest),
        Head::Annotated => fault_of_annotation(at, rest),
        _ => match row_of(name_in(first)) {
            Some(row) => fault_of_items(at, row.forms, row.more, rest),
            None => Some(place(first)),
        },
    }
}

/// The place of the first fault of a text's first list, or nothing.
fn fault_in(alloc: Global, text: &[u8]) -> Result<Vec<u8>, AllocError> {
    let mut out = Vec::new(alloc);
    let Some(list) = first_list(alloc, text) else {
        return Ok(out);
    };
    let fault = match list.items.as_slice() {
        [] => Some(list.position),
        [first, rest @ ..] => fault_of(list.position, first, rest),
    };
    if let Some(at) = fault {
        write_place(alloc, &mut out, at)?;
    }
    Ok(out)
}

/// Lists, each with the place of its first fault.
const FAULTS: [(&str, &str); 46] = [
    ("(let ((x 1)) x)", ""),
    ("(let ((x 1) (y ())) (x y))", ""),
    ("(let)", " 1:1"),
    ("(let x x)", " 1:6"),
    ("(let () x)", " 1:6"),
    ("(let ((x 1) (x)) x)", " 1:13"),
    ("(let ((x 1)))", " 1:1"),
    ("(let ((x 1)) x y)", " 1:16"),
    ("(exists ((x Int)) true)", ""),
    ("(forall ((x Int) (x (Array))) true)", ""),
    ("(exists ((x 1)) true)", " 1:9"),
    ("(exists ((x Int) y) true)", " 1:9"),
    ("(forall () true)", " 1:9"),
    ("(forall ((x Int)))", " 1:1"),
    ("(forall ((x Int)) true false)", " 1:24"),
    ("(! a :b)", ""),
    ("(! a :b 1 :c)", ""),
    ("(! a)", " 1:1"),
    ("(! a 1)", " 1:6"),
    ("(! a :b 1 2)", " 1:11"),
    ("(push)", ""),
    ("(push 1)", ""),
    ("(push x)", " 1:7"),
    ("(push 1 2)", " 1:9"),
    ("(set-logic)", " 1:1"),
    ("(set-logic LIA LIA)", " 1:16"),
    ("(set-info :a)", ""),
    ("(set-info :a ())", ""),
    ("(set-info :a :b)", " 1:14"),
    ("(declare-const x Int)", ""),
    ("(declare-const x)", " 1:1"),
    ("(declare-const 1)", " 1:16"),
    ("(declare-fun f (Int (Array)) Int)", ""),
    ("(declare-fun f (1) Int)", " 1:16"),
    ("(define-fun f ((a Int)) Int 1)", ""),
    ("(define-fun f ((a)) Int 1)", " 1:15"),
    ("(get-value (x 1))", ""),
    ("(get-value ())", " 1:12"),
    ("(echo \"a\")", ""),
    ("(echo a)", " 1:7"),
    ("(set-member p 1 (- 2))", ""),
    ("(set-member p true 1 |false|)", ""),
    ("(set-member p true x)", " 1:20"),
    ("(set-member p 1 (+ 2) x)", " 1:17"),
    ("(set-list p 5)", ""),
    ("(sets p)", " 1:2"),
];

#[test]
fn faults_of_lists(rt: HostRuntime) -> Result<(), Fail> {
    for row in &FAULTS {
        let found = fault_in(rt.alloc(), row.0.as_bytes())?;
        assert_eq!(&rt; found.as_slice(), row.1.as_bytes(), "{}", row.0);
    }
    Ok(())
}

/// The part that an expression is, and its place.
fn write_part(alloc: Global, out: &mut Vec<u8>, e: &SExpr) -> Result<(), AllocError> {
    if let Some(name) = symbol(e) {
        write_word(out, b"symbol", name)?;
    }
    if let Some(digits) = numeral(e) {
        write_word(out, b"numeral", digits)?;
    }
    if let Some(name) = keyword(e) {
        write_word(out, b"keyword", name)?;
    }
    if let Some(literal) = text(e) {
        write_word(out, b"text", literal)?;
    }
    if let Some(es) = items(e) {
        let count = format!(in alloc; " {} {}", es.len(), items_in(e).len())?;
        out.extend_from_slice(count.as_bytes())?;
    }
    if is_symbol(e, b"a b") {
        write_word(out, b"name", name_in(e))?;
    }
    write_place(alloc, out, place(e))
}

#[test]
fn parts_of_a_list(rt: HostRuntime) -> Result<(), Fail> {
    let mut out = Vec::new(rt.alloc());
    if let Some(list) = first_list(rt.alloc(), b"(|a b| 12 :k \"s\"\n(x ()) ())") {
        for e in list.items.as_slice() {
            write_part(rt.alloc(), &mut out, e)?;
        }
    }
    let expected =
        b" symbol a b name a b 1:2 numeral 12 1:8 keyword k 1:11 text \"s\" 1:14 2 2 2:1 0 0 2:8";
    assert_eq!(&rt; out.as_slice(), expected.as_slice());
    Ok(())
}

/// Names, and whether they cannot be declared.
const NAMES: [(&str, bool); 9] = [
    ("_", true),
    ("let", true),
    ("divisible", true),
    ("Bool", true),
    ("=>", true),
    ("divisible-by", false),
    ("push", false),
    ("int", false),
    ("", false),
];

#[test]
fn reserved_names(rt: HostRuntime) -> Result<(), Fail> {
    for row in &NAMES {
        assert_eq!(&rt; is_reserved_word(row.0.as_bytes()), row.1, "{}", row.0);
        assert!(&rt; is(row.0.as_bytes(), row.0.as_bytes()), "{}", row.0);
    }
    Ok(())
}
