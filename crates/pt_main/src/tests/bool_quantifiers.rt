//! Scripts that quantify over truth values, and names of both sorts.
use super::expect_all;
use std::test::Fail;

/// Scripts that quantify over truth. Words, a script, and its output.
const QUANTIFIED_TRUTH: [(&str, &str, &str); 16] = [
    ("", "(assert (exists ((q Bool)) q))(check-sat)", "sat\n"),
    ("", "(assert (forall ((q Bool)) q))(check-sat)", "unsat\n"),
    (
        "",
        "(assert (exists ((q Bool) (r Bool)) (and q (not r))))(check-sat)",
        "sat\n",
    ),
    (
        "",
        "(assert (forall ((q Bool)) (exists ((r Bool)) (xor q r))))(check-sat)",
        "sat\n",
    ),
    (
        "",
        "(assert (exists ((r Bool)) (forall ((q Bool)) (xor q r))))(check-sat)",
        "unsat\n",
    ),
    (
        "",
        "(declare-const p Bool)(assert (forall ((q Bool)) (or p q)))(check-sat)(get-value (p))",
        "sat\n((p true))\n",
    ),
    (
        "",
        "(declare-const p Bool)(assert (forall ((q Bool)) (=> q p)))(assert (exists ((p Bool)) (not p)))(check-sat)(get-model)",
        "sat\n(\n  (define-fun p () Bool true)\n)\n",
    ),
    (
        "",
        "(declare-const p Bool)(declare-const x Int)(assert (forall ((q Bool)) (=> (= q p) (ite q (= x 3) (= x 4)))))(check-sat)(get-model)(assert p)(check-sat)(get-model)",
        "sat\n(\n  (define-fun p () Bool true)\n  (define-fun x () Int 3)\n)\nsat\n(\n  (define-fun p () Bool true)\n  (define-fun x () Int 3)\n)\n",
    ),
    (
        "",
        "(declare-const x Int)(assert (forall ((q Bool)) (ite q (> x 2) (< x 6))))(check-sat)(get-value (x))",
        "sat\n((x 3))\n",
    ),
    (
        "",
        "(declare-const x Int)(assert (exists ((q Bool)) (and (ite q (= x 2) (= x 5)) (=> q (> x 3)))))(check-sat)(get-value (x))",
        "sat\n((x 5))\n",
    ),
    (
        "",
        "(assert (forall ((a Bool) (b Bool) (c Bool)) (= (and a (or b c)) (or (and a b) (and a c)))))(check-sat)",
        "sat\n",
    ),
    (
        "",
        "(assert (forall ((a Bool) (b Bool)) (= (not (and a b)) (or (not a) (not b)))))(check-sat)",
        "sat\n",
    ),
    (
        "",
        "(assert (forall ((a Bool) (b Bool)) (= (=> a b) (=> b a))))(check-sat)",
        "unsat\n",
    ),
    (
        "",
        "(assert (exists ((x Int) (x Bool)) (and x (not (not x)))))(check-sat)",
        "sat\n",
    ),
    (
        "",
        "(assert (forall ((q Bool)) (exists ((y Int)) (= q ((_ divisible 2) y)))))(check-sat)",
        "sat\n",
    ),
    (
        "",
        "(declare-const p Bool)(assert (exists ((x Int)) (and (= p (> x 0)) (= (* 2 x) 3))))(check-sat)",
        "unsat\n",
    ),
];

#[test]
fn scripts_that_quantify_over_truth(rt: HostRuntime) -> Result<(), Fail> {
    expect_all(&rt, rt.alloc(), &QUANTIFIED_TRUTH)
}

/// Scripts that nest quantifiers over both sorts. Words, a script, and its output.
const NESTED_QUANTIFIERS: [(&str, &str, &str); 9] = [
    (
        "",
        "(declare-const x Int)(assert (forall ((q Bool)) (exists ((y Int)) (forall ((r Bool)) (ite q (=> r (= x (+ y 1))) (=> r (= y (+ x 1))))))))(check-sat)(get-value (x))",
        "sat\n((x 0))\n",
    ),
    (
        "",
        "(declare-const x Int)(assert (forall ((y Int)) (exists ((q Bool)) (ite q (< y x) (>= y x)))))(check-sat)(get-value (x))",
        "sat\n((x 0))\n",
    ),
    (
        "",
        "(declare-const x Int)(assert (exists ((q Bool)) (forall ((y Int)) (=> (> y x) (ite q (> y 2) (> y 5))))))(check-sat)(get-value (x))",
        "sat\n((x 2))\n",
    ),
    (
        "",
        "(assert (exists ((x Int)) (forall ((q Bool)) (exists ((y Int)) (and (= q (> y x)) (< (- 2) y 2))))))(check-sat)",
        "sat\n",
    ),
    (
        "",
        "(assert (forall ((p Bool) (x Int)) (exists ((q Bool) (y Int)) (and (xor p q) (= q (= y 1)) (<= 0 y 1)))))(check-sat)",
        "sat\n",
    ),
    (
        "",
        "(declare-const p Bool)(assert (forall ((x Int)) (exists ((y Bool)) (= (xor p y) (>= x 0)))))(check-sat)(get-value (p))",
        "sat\n((p false))\n",
    ),
    (
        "",
        "(define-fun f ((p Bool) (x Int)) Bool (forall ((q Bool)) (exists ((y Int)) (and (= (= q p) (= x y)) (<= 0 y 1)))))(set-member f true 0)(set-member f false 2)(set-member f true 1)(set-empty f)",
        "true\nfalse\ntrue\nfalse\n",
    ),
    (
        "",
        "(assert (exists ((y Int)) (forall ((q Bool)) (= q (> y 0)))))(check-sat)",
        "unsat\n",
    ),
    (
        "",
        "(declare-const p Bool)(declare-const x Int)(assert (forall ((q Bool) (y Int)) (=> (and (= q p) (= y x)) (and q (> y 3) (< y 6)))))(check-sat)(get-model)",
        "sat\n(\n  (define-fun p () Bool true)\n  (define-fun x () Int 4)\n)\n",
    ),
];

#[test]
fn scripts_that_nest_quantifiers(rt: HostRuntime) -> Result<(), Fail> {
    expect_all(&rt, rt.alloc(), &NESTED_QUANTIFIERS)
}

/// Names hidden by names of the other sort, and `let` of both. Words, a script, and its output.
const HIDDEN_NAMES: [(&str, &str, &str); 10] = [
    (
        "",
        "(declare-const x Int)(assert (= x 3))(assert (exists ((x Bool)) x))(check-sat)(get-value (x))",
        "sat\n((x 3))\n",
    ),
    (
        "",
        "(declare-const p Bool)(assert p)(assert (forall ((p Int)) (=> (> p 0) (>= p 1))))(check-sat)(get-value (p))",
        "sat\n((p true))\n",
    ),
    (
        "",
        "(declare-const x Int)(assert (let ((x (> x 2)) (y x)) (and x (= y 5))))(check-sat)(get-value (x))",
        "sat\n((x 5))\n",
    ),
    (
        "",
        "(declare-const x Int)(declare-const p Bool)(assert (let ((a p) (b (+ x 1))) (and (not a) (= b 3))))(check-sat)(get-value (p x))",
        "sat\n((p false) (x 2))\n",
    ),
    (
        "",
        "(declare-const p Bool)(define-fun f ((p Int)) Bool (> p 2))(assert (and p (f 3)))(check-sat)(get-value (p))",
        "sat\n((p true))\n",
    ),
    (
        "",
        "(declare-const x Int)(define-fun f ((x Bool)) Bool (not x))(assert (f (= x 1)))(assert (<= 0 x))(check-sat)(get-value (x))",
        "sat\n((x 0))\n",
    ),
    (
        "",
        "(assert (exists ((x Int)) (and (= x 2) (exists ((x Bool)) (and x (forall ((x Int)) (= x x)))))))(check-sat)",
        "sat\n",
    ),
    (
        "",
        "(declare-const p Bool)(push 1)(assert (let ((p 3)) (= p 3)))(assert (not p))(check-sat)(get-value (p))(pop 1)(assert p)(check-sat)(get-value (p))",
        "sat\n((p false))\nsat\n((p true))\n",
    ),
    (
        "",
        "(declare-const x Int)(assert (let ((x (= x 4))) (let ((x (ite x (= 1 2) (= 1 1)))) (not x))))(check-sat)(get-value (x))",
        "sat\n((x 4))\n",
    ),
    (
        "",
        "(declare-const p Bool)(declare-const x Int)(assert (let ((p x) (x p)) (and x (= p 6))))(check-sat)(get-model)",
        "sat\n(\n  (define-fun p () Bool true)\n  (define-fun x () Int 6)\n)\n",
    ),
];

#[test]
fn names_hidden_by_the_other_sort(rt: HostRuntime) -> Result<(), Fail> {
    expect_all(&rt, rt.alloc(), &HIDDEN_NAMES)
}
