//! Texts, command names, and the commands that take no formula.
use super::outline::refuse_all;
use std::test::Fail;

/// Texts, each with the refusal that ends it.
const TEXTS_THAT_ARE_NO_COMMANDS: [(&str, &str); 34] = [
    ("(assert (= 01 1))", " Syntax 1:12"),
    (")", " Syntax 1:1"),
    ("x", " Syntax 1:1"),
    ("()", " Syntax 1:1"),
    ("((a) b)", " Syntax 1:1"),
    ("(3 4)", " Syntax 1:1"),
    ("(check-sat)\n(assert (= 1 1)", " Syntax 2:16"),
    ("(check-sat)\n )", " Syntax 2:2"),
    ("(check-sat) x", " Syntax 1:13"),
    (":a", " Syntax 1:1"),
    ("\"a\"", " Syntax 1:1"),
    ("12", " Syntax 1:1"),
    ("|a| (exit)", " Syntax 1:1"),
    ("(:a)", " Syntax 1:1"),
    ("(\"check-sat\")", " Syntax 1:1"),
    ("(1.5)", " Syntax 1:1"),
    ("(exit) (() exit)", " Syntax 1:8"),
    ("((a) 01)", " Syntax 1:6"),
    ("( 01)", " Syntax 1:3"),
    ("(3 \"a)\n", " Syntax 2:1"),
    ("(() (a)", " Syntax 1:8"),
    ("(foo 01)", " Syntax 1:6"),
    ("(foo (a)", " Syntax 1:9"),
    ("(foo \u{1})", " Syntax 1:6"),
    ("(foo #z)", " Syntax 1:6"),
    ("(foo :)", " Syntax 1:6"),
    ("(foo \"a\u{7f}\")", " Syntax 1:6"),
    ("(set-logic QF_BV 1.)", " Syntax 1:18"),
    ("(assert (= 9223372036854775808 |\\|))", " Syntax 1:32"),
    ("(declare-const let Int", " Syntax 1:23"),
    ("(check-sat", " Syntax 1:11"),
    ("(check-sat\n", " Syntax 2:1"),
    ("(check-sat ; )\n  ", " Syntax 2:3"),
    ("(check-sat \"\n", " Syntax 2:1"),
];

#[test]
fn texts_that_are_no_commands(rt: HostRuntime) -> Result<(), Fail> {
    refuse_all(&rt, rt.alloc(), &TEXTS_THAT_ARE_NO_COMMANDS)
}

/// Texts, each with the refusal that ends it.
const NAMES_OF_NO_COMMAND: [(&str, &str); 22] = [
    ("(foo)", " Unsupported 1:2"),
    ("(check-sat-assuming (x))", " Unsupported 1:2"),
    ("(get-assertions)", " Unsupported 1:2"),
    ("(declare-sort S 0)", " Unsupported 1:2"),
    ("(define-fun-rec f () Int 1)", " Unsupported 1:2"),
    ("(reset-assertions)", " Unsupported 1:2"),
    ("(foo 1 2)", " Unsupported 1:2"),
    ("(assert-not true)", " Unsupported 1:2"),
    ("(Check-Sat)", " Unsupported 1:2"),
    ("(|check sat|)", " Unsupported 1:2"),
    ("(|| 1)", " Unsupported 1:2"),
    ("(let)", " Unsupported 1:2"),
    ("(and)", " Unsupported 1:2"),
    ("(define-const x Int 1)", " Unsupported 1:2"),
    ("(define-funs-rec () ())", " Unsupported 1:2"),
    ("(declare-datatypes () ())", " Unsupported 1:2"),
    ("(get-info :a)", " Unsupported 1:2"),
    ("(get-option :a)", " Unsupported 1:2"),
    ("(get-unsat-core)", " Unsupported 1:2"),
    ("(get-proof)", " Unsupported 1:2"),
    ("(set-logics LIA)", " Unsupported 1:2"),
    ("(check-sat)\n(define-sort S () Int)", " Unsupported 2:2"),
];

#[test]
fn names_of_no_command(rt: HostRuntime) -> Result<(), Fail> {
    refuse_all(&rt, rt.alloc(), &NAMES_OF_NO_COMMAND)
}

/// Texts, each with the refusal that ends it.
const REFUSALS_OF_SETTINGS: [(&str, &str); 25] = [
    ("(set-logic 3)", " Syntax 1:12"),
    ("(set-logic)", " Syntax 1:1"),
    ("(set-logic LIA LIA)", " Syntax 1:16"),
    ("(set-logic QF_BV)", " Logic 1:12"),
    ("(set-info a)", " Syntax 1:11"),
    ("(set-info :a :b)", " Syntax 1:14"),
    ("(set-info :a 1 2)", " Syntax 1:16"),
    ("(set-info)", " Syntax 1:1"),
    ("(set-option x true)", " Syntax 1:13"),
    ("(set-logic \"LIA\")", " Syntax 1:12"),
    ("(set-logic (LIA))", " Syntax 1:12"),
    ("(set-logic :LIA)", " Syntax 1:12"),
    ("(set-logic lia)", " Logic 1:12"),
    ("(set-logic |Q F|)", " Logic 1:12"),
    ("(set-logic QF_BV 1)", " Syntax 1:18"),
    ("(set-info \"a\")", " Syntax 1:11"),
    ("(set-info 3)", " Syntax 1:11"),
    ("(set-info (:a))", " Syntax 1:11"),
    ("(set-info :a () ())", " Syntax 1:17"),
    ("(set-info :a :b 1)", " Syntax 1:14"),
    ("(set-option)", " Syntax 1:1"),
    ("(set-option 3 true)", " Syntax 1:13"),
    ("(set-option print-success true)", " Syntax 1:13"),
    ("(set-option :a :b)", " Syntax 1:16"),
    ("(set-option :print-success true false)", " Syntax 1:33"),
];

#[test]
fn refusals_of_settings(rt: HostRuntime) -> Result<(), Fail> {
    refuse_all(&rt, rt.alloc(), &REFUSALS_OF_SETTINGS)
}

/// Texts, each with the refusal that ends it.
const REFUSALS_OF_VALUES: [(&str, &str); 33] = [
    ("(get-value x)", " Syntax 1:12"),
    ("(get-value ())", " Syntax 1:12"),
    ("(get-value)", " Syntax 1:1"),
    ("(get-value (x))", " Unknown 1:13"),
    ("(get-value (and))", " Unknown 1:13"),
    ("(get-value (true))", " Unsupported 1:13"),
    ("(get-value (3))", " Unsupported 1:13"),
    ("(get-value (9223372036854775808))", " Unsupported 1:13"),
    (
        "(declare-const x Int)\n(get-value (x (+ x 1)))",
        " Unsupported 2:15",
    ),
    ("(get-model 1)", " Syntax 1:12"),
    ("(get-value 3)", " Syntax 1:12"),
    ("(get-value :a)", " Syntax 1:12"),
    ("(get-value (x) (y))", " Syntax 1:16"),
    ("(get-value (x) 3)", " Syntax 1:16"),
    ("(get-model ())", " Syntax 1:12"),
    ("(get-value (\"a\"))", " Unsupported 1:13"),
    ("(get-value (:a))", " Unsupported 1:13"),
    ("(get-value (()))", " Unsupported 1:13"),
    ("(get-value (1.5))", " Unsupported 1:13"),
    ("(get-value (#b1))", " Unsupported 1:13"),
    ("(get-value (false))", " Unsupported 1:13"),
    ("(get-value (Int))", " Unknown 1:13"),
    ("(get-value (_))", " Unknown 1:13"),
    (
        "(declare-const x Int)\n(get-value (x y 3))",
        " Unknown 2:15",
    ),
    (
        "(declare-const x Int)\n(get-value (x (x) y))",
        " Unsupported 2:15",
    ),
    (
        "(declare-const x Int)\n(get-value (x |x|\n |x |))",
        " Unknown 3:2",
    ),
    (
        "(define-fun c () Int 5)\n(get-value (c))",
        " Unsupported 2:13",
    ),
    (
        "(define-fun f ((a Int)) Int a)\n(get-value (f))",
        " Unsupported 2:13",
    ),
    (
        "(define-fun t () Bool true)\n(get-value (t))",
        " Unsupported 2:13",
    ),
    (
        "(define-fun f ((a Int)) Int a)\n(get-value (a))",
        " Unknown 2:13",
    ),
    (
        "(assert (exists ((k Int)) true))\n(get-value (k))",
        " Unknown 2:13",
    ),
    (
        "(push 1)\n(declare-const x Int)\n(pop 1)\n(get-value (x))",
        " Unknown 4:13",
    ),
    (
        "(declare-const x Int)\n(reset)\n(get-value (x))",
        " Unknown 3:13",
    ),
];

#[test]
fn refusals_of_values(rt: HostRuntime) -> Result<(), Fail> {
    refuse_all(&rt, rt.alloc(), &REFUSALS_OF_VALUES)
}

/// Texts, each with the refusal that ends it.
const REFUSALS_OF_OTHER_COMMANDS: [(&str, &str); 36] = [
    ("(assert)", " Syntax 1:1"),
    ("(assert true true)", " Syntax 1:14"),
    ("(assert 1)", " Sort 1:9"),
    ("(declare-const x Int)\n(assert x)", " Sort 2:9"),
    ("(check-sat 1)", " Syntax 1:12"),
    ("(push x)", " Syntax 1:7"),
    ("(push 1 2)", " Syntax 1:9"),
    ("(push 9223372036854775808)", " Coefficient 1:7"),
    ("(pop ())", " Syntax 1:6"),
    ("(reset 1)", " Syntax 1:8"),
    ("(echo x)", " Syntax 1:7"),
    ("(echo)", " Syntax 1:1"),
    ("(exit 1)", " Syntax 1:7"),
    ("(assert true 3)", " Syntax 1:14"),
    ("(assert (+ 1 2))", " Sort 1:9"),
    ("(define-fun c () Int 5)\n(assert c)", " Sort 2:9"),
    ("(check-sat ())", " Syntax 1:12"),
    ("(check-sat :a \"b\")", " Syntax 1:12"),
    ("(push (- 1))", " Syntax 1:7"),
    ("(push -1)", " Syntax 1:7"),
    ("(push 1.5)", " Syntax 1:7"),
    ("(push \"1\")", " Syntax 1:7"),
    ("(push 9223372036854775808 x)", " Syntax 1:27"),
    ("(pop x)", " Syntax 1:6"),
    ("(pop 1 2)", " Syntax 1:8"),
    ("(pop 9223372036854775808)", " Coefficient 1:6"),
    ("(pop 18446744073709551616)", " Coefficient 1:6"),
    (
        "(push 9999999999999999999999999999999999999999)",
        " Coefficient 1:7",
    ),
    ("(reset reset)", " Syntax 1:8"),
    ("(echo 3)", " Syntax 1:7"),
    ("(echo |a|)", " Syntax 1:7"),
    ("(echo (\"a\"))", " Syntax 1:7"),
    ("(echo :a)", " Syntax 1:7"),
    ("(echo \"a\" \"b\")", " Syntax 1:11"),
    ("(exit exit)", " Syntax 1:7"),
    ("(exit)\n(exit ())", " Syntax 2:7"),
];

#[test]
fn refusals_of_other_commands(rt: HostRuntime) -> Result<(), Fail> {
    refuse_all(&rt, rt.alloc(), &REFUSALS_OF_OTHER_COMMANDS)
}
