//! `let`, quantifiers and annotations.
use super::outline::refuse_all;
use std::test::Fail;

/// Texts, each with the refusal that ends it.
const FORMS_OF_BINDERS: [(&str, &str); 36] = [
    ("(assert (let))", " Syntax 1:9"),
    ("(assert (let () true))", " Syntax 1:14"),
    ("(assert (let x true))", " Syntax 1:14"),
    ("(assert (let (x) true))", " Syntax 1:15"),
    ("(assert (let ((x 1) (y)) true))", " Syntax 1:21"),
    ("(assert (let ((x 1 2)) true))", " Syntax 1:15"),
    ("(assert (let ((3 1)) true))", " Syntax 1:15"),
    ("(assert (let ((x 1))))", " Syntax 1:9"),
    ("(assert (let ((x 1)) true true))", " Syntax 1:27"),
    ("(assert (exists () true))", " Syntax 1:17"),
    ("(assert (exists ((x)) true))", " Syntax 1:17"),
    ("(assert (exists ((x Int) (3 Int)) true))", " Syntax 1:17"),
    ("(assert (exists ((x Int))))", " Syntax 1:9"),
    ("(assert (forall ((x Int)) true true))", " Syntax 1:32"),
    ("(assert (! true))", " Syntax 1:9"),
    ("(assert (! true a))", " Syntax 1:17"),
    ("(assert (! true :a 1 2))", " Syntax 1:22"),
    ("(assert (let ((x y))))", " Syntax 1:9"),
    ("(assert (let ((x y) (3 1)) true))", " Syntax 1:21"),
    ("(assert (let ((x y) x) true))", " Syntax 1:21"),
    ("(assert (let ((x 1) ()) true))", " Syntax 1:21"),
    ("(assert (let ((x y)) z w))", " Syntax 1:24"),
    ("(assert (let \"a\" true))", " Syntax 1:14"),
    ("(assert (let (((x) 1)) true))", " Syntax 1:15"),
    ("(assert (let ()))", " Syntax 1:14"),
    ("(assert (exists))", " Syntax 1:9"),
    ("(assert (forall))", " Syntax 1:9"),
    ("(assert (exists x true))", " Syntax 1:17"),
    ("(assert (exists (x) true))", " Syntax 1:17"),
    ("(assert (exists ((x 3)) true))", " Syntax 1:17"),
    ("(assert (exists ((x Int Int)) true))", " Syntax 1:17"),
    ("(assert (forall () true))", " Syntax 1:17"),
    ("(assert (forall ((x Int) ()) true))", " Syntax 1:17"),
    (
        "(assert (forall ((let Real) (\"a\" Int)) true))",
        " Syntax 1:17",
    ),
    ("(assert (forall ((let Int))))", " Syntax 1:9"),
    ("(assert (exists ((x Real)) y z))", " Syntax 1:30"),
];

#[test]
fn forms_of_binders(rt: HostRuntime) -> Result<(), Fail> {
    refuse_all(&rt, rt.alloc(), &FORMS_OF_BINDERS)
}

/// Texts, each with the refusal that ends it.
const FORMS_OF_ANNOTATIONS: [(&str, &str); 11] = [
    ("(assert (!))", " Syntax 1:9"),
    ("(assert (! y))", " Syntax 1:9"),
    ("(assert (! y a))", " Syntax 1:14"),
    ("(assert (! y :a 1 2))", " Syntax 1:19"),
    ("(assert (! y :a 1 :b 2 ()))", " Syntax 1:24"),
    ("(assert (! y ()))", " Syntax 1:14"),
    ("(assert (! y \"a\" :a))", " Syntax 1:14"),
    ("(assert (! y :a))", " Unknown 1:12"),
    ("(assert (! 1 :a))", " Sort 1:9"),
    ("(assert (! :a :b))", " Syntax 1:12"),
    ("(assert (and (! true :named b) b))", " Unknown 1:32"),
];

#[test]
fn forms_of_annotations(rt: HostRuntime) -> Result<(), Fail> {
    refuse_all(&rt, rt.alloc(), &FORMS_OF_ANNOTATIONS)
}

/// Texts, each with the refusal that ends it.
const RULES_OF_BINDERS: [(&str, &str); 25] = [
    ("(assert (let ((x 1) (x 2)) true))", " Redeclared 1:22"),
    ("(assert (let ((and y)) true))", " Redeclared 1:16"),
    ("(assert (let ((x 1) (y x)) true))", " Unknown 1:24"),
    ("(assert (exists ((x Real)) true))", " Unsupported 1:21"),
    ("(assert (exists ((let Bool)) true))", " Redeclared 1:19"),
    ("(assert (exists ((x Int)) x))", " Sort 1:27"),
    ("(assert (exists ((x Int)) (= x y)))", " Unknown 1:32"),
    ("(assert (let ((x y) (and 1)) true))", " Unknown 1:18"),
    ("(assert (let ((x 1) (x y)) true))", " Redeclared 1:22"),
    ("(assert (let ((x 1) (and 2)) y))", " Redeclared 1:22"),
    (
        "(assert (let ((x 1) (y 2) (|x| 3)) true))",
        " Redeclared 1:28",
    ),
    ("(assert (and (let ((z true)) z) z))", " Unknown 1:33"),
    (
        "(assert (let ((x 1)) (let ((y x)) (= y z))))",
        " Unknown 1:40",
    ),
    ("(assert (let ((x 1)) x))", " Sort 1:9"),
    (
        "(assert (let ((x (let ((y 1)) y))) (= x y)))",
        " Unknown 1:41",
    ),
    (
        "(assert (exists ((x Real) (let Int)) true))",
        " Unsupported 1:21",
    ),
    ("(assert (exists ((x (Int))) y))", " Unsupported 1:21"),
    (
        "(assert (exists ((x Int) (+ Real)) true))",
        " Redeclared 1:27",
    ),
    (
        "(assert (forall ((x Int) (x Real)) true))",
        " Unsupported 1:29",
    ),
    ("(assert (forall ((x Int)) (+ x 1)))", " Sort 1:27"),
    ("(assert (exists ((x Int) (y Int)) (! y :a)))", " Sort 1:35"),
    (
        "(assert (and (exists ((k Int)) true) (= k 1)))",
        " Unknown 1:41",
    ),
    (
        "(assert (forall ((x Int)) (= x 1)))\n(assert (= x 1))",
        " Unknown 2:12",
    ),
    (
        "(assert (exists ((x Int)) (let ((x true)) (= 1 x))))",
        " Sort 1:48",
    ),
    (
        "(assert (let ((x true)) (exists ((x Int)) (and true x))))",
        " Sort 1:53",
    ),
];

#[test]
fn rules_of_binders(rt: HostRuntime) -> Result<(), Fail> {
    refuse_all(&rt, rt.alloc(), &RULES_OF_BINDERS)
}
