//! Definitions and their applications.
use super::outline::{DEFINITIONS, refuse_all, refuse_all_behind};
use std::test::Fail;

/// Texts, each with the refusal that ends it.
const REFUSALS_OF_DEFINITIONS: [(&str, &str); 28] = [
    ("(define-fun f 3 Int 1)", " Syntax 1:15"),
    ("(define-fun f ((a)) Int 1)", " Syntax 1:15"),
    ("(define-fun f () Int)", " Syntax 1:1"),
    (
        "(declare-const x Int)\n(define-fun x () Int 1)",
        " Redeclared 2:13",
    ),
    ("(define-fun f ((a Int) (a Int)) Int 1)", " Redeclared 1:25"),
    ("(define-fun f ((not Int)) Int 1)", " Redeclared 1:17"),
    ("(define-fun f ((a bool)) Int 1)", " Unsupported 1:19"),
    ("(define-fun f () Real 1)", " Unsupported 1:18"),
    ("(define-fun f () Int f)", " Unknown 1:22"),
    ("(define-fun f () Int true)", " Sort 1:22"),
    ("(define-fun f () Bool 1)", " Sort 1:23"),
    ("(define-fun)", " Syntax 1:1"),
    ("(define-fun f)", " Syntax 1:1"),
    ("(define-fun f ())", " Syntax 1:1"),
    ("(define-fun 3 () Int 1)", " Syntax 1:13"),
    ("(define-fun (f) () Int 1)", " Syntax 1:13"),
    ("(define-fun f a Int 1)", " Syntax 1:15"),
    ("(define-fun f ((a Int) x) Int 1)", " Syntax 1:15"),
    ("(define-fun f ((a Int Int)) Int 1)", " Syntax 1:15"),
    ("(define-fun f (a Int) Int 1)", " Syntax 1:15"),
    ("(define-fun f ((3 Int)) Int 1)", " Syntax 1:15"),
    ("(define-fun f ((a 3)) Int 1)", " Syntax 1:15"),
    ("(define-fun f (()) Int 1)", " Syntax 1:15"),
    ("(define-fun f ((a Int) (let \"b\")) Int)", " Syntax 1:15"),
    ("(define-fun f ((a Int)) 3 1)", " Syntax 1:25"),
    ("(define-fun f ((a Real)) \"Int\")", " Syntax 1:26"),
    ("(define-fun f () Int 1 2)", " Syntax 1:24"),
    ("(define-fun f ((a Real)) Real y ())", " Syntax 1:33"),
];

#[test]
fn refusals_of_definitions(rt: HostRuntime) -> Result<(), Fail> {
    refuse_all(&rt, rt.alloc(), &REFUSALS_OF_DEFINITIONS)
}

/// Texts, each with the refusal that ends it.
const RULES_OF_DEFINITIONS: [(&str, &str); 22] = [
    ("(define-fun let ((a Real)) Int 1)", " Redeclared 1:13"),
    (
        "(define-fun f () Int 1)\n(define-fun f () Int 2)",
        " Redeclared 2:13",
    ),
    (
        "(define-fun f ((a Int)) Int a)\n(define-fun f () Real y)",
        " Redeclared 2:13",
    ),
    (
        "(define-fun f ((a Int) (a Real)) Int 1)",
        " Redeclared 1:25",
    ),
    (
        "(define-fun f ((a Real) (a Int)) Int 1)",
        " Unsupported 1:19",
    ),
    ("(define-fun f ((a (Int))) Int 1)", " Unsupported 1:19"),
    ("(define-fun f ((a Int)) Real b)", " Unsupported 1:25"),
    ("(define-fun f () () 1)", " Unsupported 1:18"),
    ("(define-fun f () (Set Int) 1)", " Unsupported 1:18"),
    ("(define-fun f ((a Int)) Int (+ a b))", " Unknown 1:34"),
    ("(define-fun f ((a Int)) Int (f a))", " Unknown 1:30"),
    ("(define-fun f () Bool f)", " Unknown 1:23"),
    ("(define-fun f ((a Int)) Bool a)", " Sort 1:30"),
    ("(define-fun f ((a Int)) Int (= a 1))", " Sort 1:29"),
    ("(define-fun f ((a Int)) Int (a 1))", " Sort 1:30"),
    ("(define-fun f () Int :a)", " Syntax 1:22"),
    ("(define-fun f () Int 1.5)", " Unsupported 1:22"),
    (
        "(define-fun f () Int 9223372036854775808)",
        " Coefficient 1:22",
    ),
    (
        "(define-fun f ((a Int)) Int a)\n(assert (= a 1))",
        " Unknown 2:12",
    ),
    (
        "(push 1)\n(define-fun c () Int 1)\n(pop 1)\n(assert (= c 1))",
        " Unknown 4:12",
    ),
    (
        "(define-fun c () Int 1)\n(reset)\n(assert (= c 1))",
        " Unknown 3:12",
    ),
    (
        "(define-fun f ((a Int)) Int a)\n(reset)\n(assert (= (f 1) 1))",
        " Unknown 3:13",
    ),
];

#[test]
fn rules_of_definitions(rt: HostRuntime) -> Result<(), Fail> {
    refuse_all(&rt, rt.alloc(), &RULES_OF_DEFINITIONS)
}

/// Texts, each with the refusal that ends it.
const REFUSALS_OF_APPLICATIONS: [(&str, &str); 21] = [
    ("(assert (= f 1))", " Sort 4:12"),
    ("(assert (= (f 1) 1))", " Sort 4:12"),
    ("(assert (= (f 1 true) 1))", " Sort 4:17"),
    ("(assert (= (c 1) 1))", " Sort 4:13"),
    (
        "(assert (= (f 9223372036854775807 1) 1))",
        " Coefficient 4:12",
    ),
    ("(assert p)", " Sort 4:9"),
    ("(assert (c))", " Sort 4:10"),
    ("(assert (= (f 1 2 3) 1))", " Sort 4:12"),
    ("(assert (p))", " Sort 4:9"),
    ("(assert (p 1 true))", " Sort 4:9"),
    ("(assert (p true))", " Sort 4:12"),
    ("(assert (p (p 1)))", " Sort 4:12"),
    ("(assert (= (f true false) 1))", " Sort 4:15"),
    ("(assert (= (f 1 (and false)) 1))", " Sort 4:17"),
    ("(assert (= (f y) 1))", " Unknown 4:15"),
    ("(assert (= (f true y) 1))", " Unknown 4:20"),
    (
        "(assert (= (f 1 9223372036854775808 2) 1))",
        " Coefficient 4:17",
    ),
    ("(assert (let ((f 1)) (= (f 1 2) 1)))", " Sort 4:26"),
    ("(assert (exists ((p Int)) (p 1)))", " Sort 4:28"),
    ("(define-fun q ((c Int)) Int (c 1))", " Sort 4:30"),
    (
        "(assert (p 1))\n(assert (= (f (- 9223372036854775807) (- 2)) 1))",
        " Coefficient 5:12",
    ),
];

#[test]
fn refusals_of_applications(rt: HostRuntime) -> Result<(), Fail> {
    refuse_all_behind(&rt, rt.alloc(), DEFINITIONS, &REFUSALS_OF_APPLICATIONS)
}

/// Texts, each with the refusal that ends it.
const REFUSALS_OF_MAKING_A_COPY: [(&str, &str); 9] = [
    (
        "(define-fun g ((a Int)) Int (* 2 a))\n(assert (= (g 4611686018427387904) 1))",
        " Coefficient 2:12",
    ),
    (
        "(define-fun g ((a Int)) Int (+ a 1))\n(assert (= (g 9223372036854775807) 1))",
        " Coefficient 2:12",
    ),
    (
        "(define-fun g ((a Int) (b Int)) Int (+ a (- b)))\n(assert (= (g 0 (- (- 9223372036854775807) 1)) 1))",
        " Coefficient 2:12",
    ),
    (
        "(define-fun p ((a Int)) Bool (= (* 2 a) 0))\n(assert (p 4611686018427387904))",
        " Coefficient 2:9",
    ),
    (
        "(define-fun p ((a Int)) Bool (= a (- 9223372036854775807)))\n(declare-const x Int)\n(assert (p (+ x 5)))",
        " Coefficient 3:9",
    ),
    (
        "(define-fun p ((a Int)) Bool (and true (<= a 9223372036854775807)))\n(declare-const x Int)\n(assert (not (p (- x 1))))",
        " Coefficient 3:14",
    ),
    (
        "(define-fun f ((k Int) (l Int)) Int (+ k l))\n(declare-const a Int)(declare-const b Int)(declare-const c Int)\n(declare-const d Int)(declare-const e Int)(declare-const g Int)\n(declare-const h Int)(declare-const i Int)(declare-const j Int)\n(declare-const m Int)(declare-const n Int)\n(assert (= (f (+ a b c d e) (+ g h i j m n)) 0))",
        " Tracks 6:12",
    ),
    (
        "(define-fun p ((k Int) (l Int)) Bool (= k l))\n(declare-const a Int)(declare-const b Int)(declare-const c Int)\n(declare-const d Int)(declare-const e Int)(declare-const g Int)\n(declare-const h Int)(declare-const i Int)(declare-const j Int)\n(declare-const m Int)(declare-const n Int)\n(assert (p (+ a b c d e) (+ g h i j m n)))",
        " Tracks 6:9",
    ),
    (
        "(define-fun p ((k Int) (l Int)) Bool (and (= k 1) (= l 2)))\n(declare-const a Int)(declare-const b Int)(declare-const c Int)\n(declare-const d Int)(declare-const e Int)(declare-const g Int)\n(declare-const h Int)(declare-const i Int)(declare-const j Int)\n(declare-const m Int)(declare-const n Int)\n(assert (p (+ a b c d e) (+ g h i j m n)))",
        " Tracks 6:9",
    ),
];

#[test]
fn refusals_of_making_a_copy(rt: HostRuntime) -> Result<(), Fail> {
    refuse_all(&rt, rt.alloc(), &REFUSALS_OF_MAKING_A_COPY)
}
