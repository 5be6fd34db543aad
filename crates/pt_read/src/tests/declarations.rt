//! Names and sorts of declarations.
use super::outline::{refuse_all, refuses};
use std::alloc::Global;
use std::process::Abort;
use std::test::Fail;

/// The names that cannot be declared, defined or bound.
const RESERVED: [&str; 31] = [
    "_",
    "!",
    "as",
    "let",
    "exists",
    "forall",
    "match",
    "par",
    "true",
    "false",
    "not",
    "and",
    "or",
    "xor",
    "=>",
    "=",
    "distinct",
    "ite",
    "+",
    "-",
    "*",
    "div",
    "mod",
    "abs",
    "<=",
    "<",
    ">=",
    ">",
    "divisible",
    "Int",
    "Bool",
];

/// What stands before and behind a name that is declared, defined, bound or asked for as a set, and the refusal.
const PLACES: [(&str, &str, &str); 11] = [
    ("(declare-const ", " Int)", " Redeclared 1:16"),
    ("(declare-const |", "| Bool)", " Redeclared 1:16"),
    ("(declare-fun ", " () Int)", " Redeclared 1:14"),
    ("(define-fun ", " ((a Real)) Int 1)", " Redeclared 1:13"),
    ("(define-fun f ((", " Real)) Int 1)", " Redeclared 1:17"),
    ("(assert (let ((", " y)) true))", " Redeclared 1:16"),
    ("(assert (exists ((", " Real)) true))", " Redeclared 1:19"),
    (
        "(assert (forall ((x Int) (",
        " Int)) true))",
        " Redeclared 1:27",
    ),
    ("(set-empty ", ")", " Unknown 1:12"),
    ("(set-member ", " 1)", " Unknown 1:13"),
    ("(set-subset ", " q)", " Unknown 1:13"),
];

/// Each name at each place.
fn refuse_each(
    rt: &(impl Abort + Eprint),
    alloc: Global,
    places: &[(&str, &str, &str)],
    names: &[&str],
) -> Result<(), Fail> {
    for place in places {
        for name in names {
            let text = format!(in alloc; "{}{}{}", place.0, *name, place.1)?;
            refuses(rt, alloc, text.as_str(), place.2)?;
        }
    }
    Ok(())
}

#[test]
fn reserved_names(rt: HostRuntime) -> Result<(), Fail> {
    refuse_each(&rt, rt.alloc(), &PLACES, &RESERVED)
}

/// Texts, each with the refusal that ends it.
const REFUSALS_OF_CONSTANTS: [(&str, &str); 33] = [
    ("(declare-const x)", " Syntax 1:1"),
    ("(declare-const 3 Int)", " Syntax 1:16"),
    ("(declare-const x 3)", " Syntax 1:18"),
    ("(declare-const x Int y)", " Syntax 1:22"),
    ("(declare-const x Real)", " Unsupported 1:18"),
    ("(declare-const x Real)", " Unsupported 1:18"),
    ("(declare-const x (Array Int Int))", " Unsupported 1:18"),
    ("(declare-const x ())", " Unsupported 1:18"),
    (
        "(declare-const x Int)\n(declare-const x Int)",
        " Redeclared 2:16",
    ),
    (
        "(declare-const x Int)\n(declare-const |x| Int)",
        " Redeclared 2:16",
    ),
    ("(declare-const let Int)", " Redeclared 1:16"),
    ("(declare-const Int Real)", " Redeclared 1:16"),
    ("(declare-const _ Int)", " Redeclared 1:16"),
    ("(declare-const divisible Int)", " Redeclared 1:16"),
    ("(declare-const)", " Syntax 1:1"),
    ("(declare-const \"x\" Int)", " Syntax 1:16"),
    ("(declare-const (x) Int)", " Syntax 1:16"),
    ("(declare-const :x Int)", " Syntax 1:16"),
    ("(declare-const 3)", " Syntax 1:16"),
    ("(declare-const 3 4)", " Syntax 1:16"),
    ("(declare-const x \"Int\")", " Syntax 1:18"),
    ("(declare-const x :Int)", " Syntax 1:18"),
    ("(declare-const x 1.5)", " Syntax 1:18"),
    ("(declare-const x Int 1 2)", " Syntax 1:22"),
    ("(declare-const let Int 1)", " Syntax 1:24"),
    ("(declare-const x Real ())", " Syntax 1:23"),
    ("(declare-const x int)", " Unsupported 1:18"),
    ("(declare-const x (Int))", " Unsupported 1:18"),
    ("(declare-const x (_ BitVec 8))", " Unsupported 1:18"),
    ("(declare-const x x)", " Unsupported 1:18"),
    (
        "(define-fun c () Int 1)\n(declare-const c Bool)",
        " Redeclared 2:16",
    ),
    (
        "(define-fun f ((a Int)) Int a)\n(declare-const f Int)",
        " Redeclared 2:16",
    ),
    (
        "(declare-const x Int)\n(push 1)\n(declare-const x Int)",
        " Redeclared 3:16",
    ),
];

#[test]
fn refusals_of_constants(rt: HostRuntime) -> Result<(), Fail> {
    refuse_all(&rt, rt.alloc(), &REFUSALS_OF_CONSTANTS)
}

/// Texts, each with the refusal that ends it.
const REFUSALS_OF_FUNCTIONS: [(&str, &str); 28] = [
    ("(declare-fun f (Int) Int)", " Unsupported 1:16"),
    ("(declare-fun f (()) Int)", " Unsupported 1:16"),
    ("(declare-fun f (3) Int)", " Syntax 1:16"),
    ("(declare-fun f Int Int)", " Syntax 1:16"),
    (
        "(declare-const x Int)\n(declare-fun x (Int) Int)",
        " Redeclared 2:14",
    ),
    ("(declare-fun f () Real)", " Unsupported 1:19"),
    ("(declare-fun f () Int 1)", " Syntax 1:23"),
    ("(declare-fun)", " Syntax 1:1"),
    ("(declare-fun f)", " Syntax 1:1"),
    ("(declare-fun f ())", " Syntax 1:1"),
    ("(declare-fun 3 () Int)", " Syntax 1:14"),
    ("(declare-fun \"f\" () Int)", " Syntax 1:14"),
    ("(declare-fun f 3 Int)", " Syntax 1:16"),
    ("(declare-fun f 3)", " Syntax 1:16"),
    ("(declare-fun f (Int 3) Int)", " Syntax 1:16"),
    ("(declare-fun f (\"a\") Int)", " Syntax 1:16"),
    ("(declare-fun f (:a) Int)", " Syntax 1:16"),
    ("(declare-fun f () 3)", " Syntax 1:19"),
    ("(declare-fun f () :Int)", " Syntax 1:19"),
    ("(declare-fun f (Int) Real x)", " Syntax 1:27"),
    ("(declare-fun f (Int) Real)", " Unsupported 1:16"),
    ("(declare-fun f (Real (List Int)) Int)", " Unsupported 1:16"),
    ("(declare-fun f () bool)", " Unsupported 1:19"),
    ("(declare-fun f () ())", " Unsupported 1:19"),
    ("(declare-fun and () Int)", " Redeclared 1:14"),
    ("(declare-fun |Bool| (Int) Real)", " Redeclared 1:14"),
    (
        "(declare-fun x () Int)\n(declare-fun x () Int)",
        " Redeclared 2:14",
    ),
    (
        "(define-fun c () Int 1)\n(declare-fun c () Bool)",
        " Redeclared 2:14",
    ),
];

#[test]
fn refusals_of_functions(rt: HostRuntime) -> Result<(), Fail> {
    refuse_all(&rt, rt.alloc(), &REFUSALS_OF_FUNCTIONS)
}
