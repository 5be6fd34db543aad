//! Scripts with names of sort Bool.
use super::{expect, expect_all};
use std::alloc::Global;
use std::process::Abort;
use std::test::Fail;
use std::thread::Threads;

/// A truth value that says how a number compares, a model, quantifiers, and sets. Words, a script, and its output.
const FIRST_SCRIPTS: [(&str, &str, &str); 4] = [
    (
        "",
        "(declare-const p Bool)\n(declare-const x Int)\n(assert (= p (> x 2)))\n(assert p)\n(check-sat)\n(get-value (p x))",
        "sat\n((p true) (x 3))\n",
    ),
    (
        "",
        "(declare-const p Bool)\n(check-sat)\n(get-model)",
        "sat\n(\n  (define-fun p () Bool false)\n)\n",
    ),
    (
        "",
        "(assert (forall ((q Bool)) (or q (not q))))\n(check-sat)\n(assert (exists ((q Bool)) (and q (not q))))\n(check-sat)",
        "sat\nunsat\n",
    ),
    (
        "",
        "(define-fun f ((q Bool) (x Int)) Bool (and q (>= x 0)))\n(define-fun g ((r Bool) (y Int)) Bool (and (>= y 0) r))\n(set-equal f g)\n(set-member f true 3)\n(set-finite f)",
        "true\ntrue\n(error \"5:13: unsupported\")\n",
    ),
];

#[test]
fn first_scripts_of_sort_bool(rt: HostRuntime) -> Result<(), Fail> {
    expect_all(&rt, rt.alloc(), &FIRST_SCRIPTS)
}

/// Scripts of constants of sort Bool alone. Words, a script, and its output.
const TRUTH_ALONE: [(&str, &str, &str); 12] = [
    (
        "",
        "(declare-const p Bool)(assert p)(check-sat)(get-value (p))",
        "sat\n((p true))\n",
    ),
    (
        "",
        "(declare-const p Bool)(assert (not p))(check-sat)(get-value (p))",
        "sat\n((p false))\n",
    ),
    (
        "",
        "(declare-const p Bool)(assert (and p (not p)))(check-sat)",
        "unsat\n",
    ),
    (
        "",
        "(declare-const p Bool)(assert (or p (not p)))(check-sat)(get-model)",
        "sat\n(\n  (define-fun p () Bool false)\n)\n",
    ),
    (
        "",
        "(declare-const p Bool)(declare-const q Bool)(assert (xor p q))(check-sat)(get-model)",
        "sat\n(\n  (define-fun p () Bool true)\n  (define-fun q () Bool false)\n)\n",
    ),
    (
        "",
        "(declare-const p Bool)(declare-const q Bool)(assert (= p q))(assert p)(check-sat)(get-model)",
        "sat\n(\n  (define-fun p () Bool true)\n  (define-fun q () Bool true)\n)\n",
    ),
    (
        "",
        "(declare-const p Bool)(declare-const q Bool)(assert (=> p q))(assert (not q))(check-sat)(get-value (q p))(assert p)(check-sat)",
        "sat\n((q false) (p false))\nunsat\n",
    ),
    (
        "",
        "(declare-const p Bool)(declare-const q Bool)(declare-const r Bool)(assert (distinct p q))(assert (distinct q r))(check-sat)(get-model)(assert (distinct p r))(check-sat)",
        "sat\n(\n  (define-fun p () Bool false)\n  (define-fun q () Bool true)\n  (define-fun r () Bool false)\n)\nunsat\n",
    ),
    (
        "",
        "(declare-const p Bool)(declare-const q Bool)(assert (ite p q (not q)))(assert (not p))(check-sat)(get-model)",
        "sat\n(\n  (define-fun p () Bool false)\n  (define-fun q () Bool false)\n)\n",
    ),
    (
        "",
        "(declare-const p Bool)(declare-const q Bool)(declare-const r Bool)(assert (= p q r))(assert (or p q r))(check-sat)(get-value (r q p))",
        "sat\n((r true) (q true) (p true))\n",
    ),
    (
        "",
        "(declare-fun |a b| () Bool)(assert |a b|)(check-sat)(get-value (|a b|))",
        "sat\n((|a b| true))\n",
    ),
    (
        "",
        "(declare-fun p () |Bool|)(assert (xor p true))(check-sat)(get-model)",
        "sat\n(\n  (define-fun p () Bool false)\n)\n",
    ),
];

#[test]
fn scripts_of_truth_alone(rt: HostRuntime) -> Result<(), Fail> {
    expect_all(&rt, rt.alloc(), &TRUTH_ALONE)
}

/// Scripts of constants of both sorts. Words, a script, and its output.
const BOTH_SORTS: [(&str, &str, &str); 16] = [
    (
        "",
        "(declare-const p Bool)(declare-const x Int)(assert (= p (> x 2)))(assert (not p))(check-sat)(get-value (p x))",
        "sat\n((p false) (x 0))\n",
    ),
    (
        "",
        "(declare-const x Int)(declare-const p Bool)(assert (= p ((_ divisible 3) x)))(assert p)(assert (> x 3))(check-sat)(get-model)",
        "sat\n(\n  (define-fun x () Int 6)\n  (define-fun p () Bool true)\n)\n",
    ),
    (
        "",
        "(declare-const p Bool)(declare-const q Bool)(declare-const x Int)(assert (= p (< x 0)))(assert (= q (> x 0)))(assert (distinct p q))(check-sat)(get-model)",
        "sat\n(\n  (define-fun p () Bool true)\n  (define-fun q () Bool false)\n  (define-fun x () Int (- 1))\n)\n",
    ),
    (
        "",
        "(declare-const p Bool)(declare-const q Bool)(declare-const x Int)(assert (= p (< x 0)))(assert (= q (> x 0)))(assert (and p q))(check-sat)",
        "unsat\n",
    ),
    (
        "",
        "(declare-const p Bool)(declare-const q Bool)(declare-const x Int)(assert (= p (< x 0)))(assert (= q (> x 0)))(assert (not (or p q)))(check-sat)(get-value (x))",
        "sat\n((x 0))\n",
    ),
    (
        "",
        "(declare-const big Bool)(declare-const x Int)(declare-const y Int)(assert (ite big (= x (+ y 4)) (= x (- y 4))))(assert (= y 2))(assert (= big (> x y)))(check-sat)(get-value (big x y))(assert (not big))(check-sat)(get-value (big x y))",
        "sat\n((big false) (x (- 2)) (y 2))\nsat\n((big false) (x (- 2)) (y 2))\n",
    ),
    (
        "",
        "(declare-const p Bool)(declare-const x Int)(assert (=> p (= x 5)))(assert (=> (not p) (= x 6)))(check-sat)(get-value (p x))(assert (distinct x 6))(check-sat)(get-value (p x))",
        "sat\n((p false) (x 6))\nsat\n((p true) (x 5))\n",
    ),
    (
        "",
        "(declare-const p Bool)(declare-const x Int)(push 1)(assert p)(assert (= x 1))(check-sat)(get-value (p x))(pop 1)(assert (not p))(check-sat)(get-value (p x))",
        "sat\n((p true) (x 1))\nsat\n((p false) (x 0))\n",
    ),
    (
        "",
        "(declare-const p Bool)(push 1)(declare-const q Bool)(assert (and p q))(check-sat)(get-model)(pop 1)(assert (not p))(check-sat)(get-model)",
        "sat\n(\n  (define-fun p () Bool true)\n  (define-fun q () Bool true)\n)\nsat\n(\n  (define-fun p () Bool false)\n)\n",
    ),
    (
        "",
        "(declare-const p Bool)(assert p)(reset)(declare-const p Int)(assert (= p 4))(check-sat)(get-model)",
        "sat\n(\n  (define-fun p () Int 4)\n)\n",
    ),
    (
        "",
        "(declare-const x Int)(push 1)(declare-const y Bool)(assert (= y (= x 3)))(assert y)(check-sat)(get-model)(pop 1)(declare-const y Int)(assert (= y (+ x 1)))(assert (= y 2))(check-sat)(get-model)",
        "sat\n(\n  (define-fun x () Int 3)\n  (define-fun y () Bool true)\n)\nsat\n(\n  (define-fun x () Int 1)\n  (define-fun y () Int 2)\n)\n",
    ),
    (
        "",
        "(declare-const p Bool)(declare-const q Bool)(declare-const r Bool)(declare-const x Int)(assert (or (and p (= x 1)) (and q (= x 2)) (and r (= x 3))))(assert (not p))(assert (=> q r))(check-sat)(get-model)(assert (not q))(check-sat)(get-value (x))",
        "sat\n(\n  (define-fun p () Bool false)\n  (define-fun q () Bool true)\n  (define-fun r () Bool true)\n  (define-fun x () Int 2)\n)\nsat\n((x 3))\n",
    ),
    (
        "",
        "(declare-const a Bool)(declare-const b Bool)(declare-const x Int)(assert (= a ((_ divisible 2) x)))(assert (= b ((_ divisible 3) x)))(assert (and (not a) b (< x 0)))(check-sat)(get-value (a b x))",
        "sat\n((a false) (b true) (x (- 3)))\n",
    ),
    (
        "",
        "(declare-const p Bool)(declare-const x Int)(assert (let ((q (= p (= x 7)))) (and q q p)))(check-sat)(get-model)",
        "sat\n(\n  (define-fun p () Bool true)\n  (define-fun x () Int 7)\n)\n",
    ),
    (
        "",
        "(declare-const p Bool)(assert (let ((q p) (p (not p))) (xor p q)))(check-sat)(get-model)",
        "sat\n(\n  (define-fun p () Bool false)\n)\n",
    ),
    (
        "",
        "(declare-const p Bool)(assert (! (or p p) :named n))(check-sat)(get-value (p))",
        "sat\n((p true))\n",
    ),
];

#[test]
fn scripts_of_both_sorts(rt: HostRuntime) -> Result<(), Fail> {
    expect_all(&rt, rt.alloc(), &BOTH_SORTS)
}

/// Formulas over four constants.
const FORMULAS: [&str; 12] = [
    "(and p q r s)",
    "(or p q r s)",
    "(xor p q r s)",
    "(= p q r s)",
    "(=> p q r s)",
    "(ite p q (ite r s (not q)))",
    "(distinct (and p q) (or r s))",
    "(and (or p q) (or (not p) r) (or (not q) (not s)))",
    "(not (= (xor p q) (=> r s)))",
    "(exists ((t Bool)) (and (= t p) (or t q) (=> t (xor r s))))",
    "(forall ((p Bool)) (or p q (and r (not s))))",
    "(let ((p q) (q p)) (and p (not q) (or r s)))",
];

/// Whether a formula of the list is true at these four.
fn is_true(formula: usize, p: bool, q: bool, r: bool, s: bool) -> bool {
    match formula {
        0 => p && q && r && s,
        1 => p || q || r || s,
        2 => p ^ q ^ r ^ s,
        3 => p == q && q == r && r == s,
        4 => !p || !q || !r || s,
        5 => if p {
            q
        } else if r {
            s
        } else {
            !q
        },
        6 => (p && q) != (r || s),
        7 => (p || q) && (!p || r) && (!q || !s),
        8 => (p ^ q) != (!r || s),
        9 => (p || q) && (!p || (r ^ s)),
        10 => q || (r && !s),
        11 => q && !p && (r || s),
        _ => false,
    }
}

/// Of a formula each row of its truth table: as an assertion between a push and a pop, and as a member of a set.
fn truth_table(
    rt: &(impl Abort + Eprint + Threads + Sync),
    alloc: Global,
    formula: usize,
    text: &str,
) -> Result<(), Fail> {
    let mut script = format!(in alloc;
        "(declare-const p Bool)(declare-const q Bool)(declare-const r Bool)(declare-const s Bool)(define-fun f ((p Bool) (q Bool) (r Bool) (s Bool)) Bool {})",
        text
    )?;
    let mut output = String::new(alloc);
    for p in [false, true] {
        for q in [false, true] {
            for r in [false, true] {
                for s in [false, true] {
                    let row = format!(in alloc;
                        "(push 1)(assert (and (= p {}) (= q {}) (= r {}) (= s {}) {}))(check-sat)(pop 1)(set-member f {} {} {} {})",
                        p, q, r, s, text, p, q, r, s
                    )?;
                    script.push_str(row.as_str())?;
                    output.push_str(if is_true(formula, p, q, r, s) {
                        "sat\ntrue\n"
                    } else {
                        "unsat\nfalse\n"
                    })?;
                }
            }
        }
    }
    expect(rt, alloc, "", script.as_str(), output.as_str())
}

#[test]
fn truth_tables_of_connectives(rt: HostRuntime) -> Result<(), Fail> {
    for formula in 0..5 {
        truth_table(&rt, rt.alloc(), formula, FORMULAS[formula])?;
    }
    Ok(())
}

#[test]
fn truth_tables_of_nested_connectives(rt: HostRuntime) -> Result<(), Fail> {
    for formula in 5..9 {
        truth_table(&rt, rt.alloc(), formula, FORMULAS[formula])?;
    }
    Ok(())
}

#[test]
fn truth_tables_under_binders(rt: HostRuntime) -> Result<(), Fail> {
    for formula in 9..12 {
        truth_table(&rt, rt.alloc(), formula, FORMULAS[formula])?;
    }
    Ok(())
}
