//! Names of sort Bool.
use super::outline::{make_all, read_all, refuse_all, refuse_all_behind};
use crate::{Reader, Scope, Sort};
use std::test::Fail;

/// Texts, each with the refusal that ends it.
const REFUSALS_OF_SORTS: [(&str, &str); 15] = [
    ("(declare-const p Bool)\n(assert (= p 1))", " Sort 2:14"),
    ("(declare-const p Bool)\n(assert (= 1 p))", " Sort 2:14"),
    ("(declare-const p Bool)\n(assert (> p 0))", " Sort 2:12"),
    (
        "(declare-const p Bool)\n(assert (= (+ p 1) 1))",
        " Sort 2:15",
    ),
    (
        "(declare-const p Bool)\n(assert ((_ divisible 2) p))",
        " Sort 2:26",
    ),
    ("(assert (exists ((q Bool)) (< q 1)))", " Sort 1:31"),
    ("(assert (exists ((x Bool) (x Int)) x))", " Sort 1:36"),
    (
        "(declare-const p Bool)\n(assert (let ((q p)) (= q 2)))",
        " Sort 2:27",
    ),
    ("(declare-const p Bool)\n(assert (p))", " Sort 2:10"),
    ("(define-fun f ((q Bool)) Int q)", " Sort 1:30"),
    ("(define-fun f ((q Bool)) Bool (= q 1))", " Sort 1:36"),
    (
        "(define-fun f ((q Bool) (q Int)) Bool true)",
        " Redeclared 1:26",
    ),
    (
        "(declare-const p Bool)\n(declare-const p Int)",
        " Redeclared 2:16",
    ),
    ("(declare-const p |Bool|)\n(assert (= p 1))", " Sort 2:14"),
    ("(declare-const p Bool)\n(set-empty p)", " Sort 2:12"),
];

#[test]
fn refusals_of_sorts(rt: HostRuntime) -> Result<(), Fail> {
    refuse_all(&rt, rt.alloc(), &REFUSALS_OF_SORTS)
}

/// Definitions with parameters of both sorts, on four lines.
const MIXED: &str =
    "(define-fun f ((q Bool) (x Int)) Bool (and q (>= x 0)))\n(define-fun g ((r Bool) (y Int)) Bool (and (>= y 0) r))\n(define-fun h ((y Int) (r Bool)) Bool r)\n(define-fun i ((x Int) (y Int)) Bool true)\n";

/// Texts behind those definitions, each with the refusal that ends it.
const REFUSALS_BEHIND_MIXED: [(&str, &str); 24] = [
    ("(assert (f true))", " Sort 5:9"),
    ("(assert (f true 1 2))", " Sort 5:9"),
    ("(assert (f 1 2))", " Sort 5:12"),
    ("(assert (f 1 true))", " Sort 5:12"),
    ("(assert (f true false))", " Sort 5:17"),
    ("(assert f)", " Sort 5:9"),
    ("(set-equal f g)(set-equal f h)", " Sort 5:29"),
    ("(set-equal f i)", " Sort 5:14"),
    ("(set-subset i h)", " Sort 5:15"),
    ("(set-subset f g)(set-subset h f)", " Sort 5:31"),
    ("(set-member f true)", " Sort 5:1"),
    ("(set-member f 1)", " Sort 5:1"),
    ("(set-member f true 3 4)", " Sort 5:1"),
    ("(set-member f 1 3)", " Sort 5:15"),
    ("(set-member f 1 true)", " Sort 5:15"),
    ("(set-member f false true)", " Sort 5:21"),
    ("(set-member f 9223372036854775808 3)", " Sort 5:15"),
    (
        "(set-member f true 9223372036854775808)",
        " Coefficient 5:20",
    ),
    ("(set-member h 9223372036854775808 3)", " Coefficient 5:15"),
    ("(set-member f maybe 3)", " Syntax 5:15"),
    ("(set-finite f)", " Unsupported 5:13"),
    ("(set-states h)", " Unsupported 5:13"),
    ("(set-list f 10)", " Unsupported 5:11"),
    ("(set-list f 1001)", " Unsupported 5:11"),
];

#[test]
fn refusals_behind_mixed(rt: HostRuntime) -> Result<(), Fail> {
    refuse_all_behind(&rt, rt.alloc(), MIXED, &REFUSALS_BEHIND_MIXED)
}

/// Texts, each with the nodes that it makes behind node 0, in order.
const NODES_OF_SORTS: [(&str, &str); 11] = [
    (
        "(declare-const p Bool)\n(assert (or p p))",
        " 2:13 1*v0 = 1 mod 2 2:15 1*v0 = 1 mod 2 2:9 or(1,2)",
    ),
    (
        "(declare-const p Bool)\n(assert (let ((q p)) (and q q)))",
        " 2:18 1*v0 = 1 mod 2 2:22 and(1,1)",
    ),
    (
        "(declare-const p Bool)\n(declare-const x Int)\n(assert (= p (> x 2)))",
        " 3:12 1*v0 = 1 mod 2 3:14 -1*v1 <= -3 3:9 iff(1,2)",
    ),
    (
        "(assert (forall ((q Bool)) (or q (not q))))",
        " 1:32 1*v0 = 1 mod 2 1:39 1*v0 = 1 mod 2 1:34 not(2) 1:28 or(1,3) 1:9 not(4) 1:9 exists(v0,5) 1:9 not(6)",
    ),
    (
        "(assert (exists ((x Int) (x Bool)) x))",
        " 1:36 1*v1 = 1 mod 2 1:9 exists(v1,1)",
    ),
    (
        "(declare-const p Bool)\n(define-fun t () Bool p)\n(assert (and t t))",
        " 2:23 1*v0 = 1 mod 2 3:9 and(1,1)",
    ),
    (
        "(define-fun id ((q Bool)) Bool q)\n(declare-const p Bool)\n(assert (id p))",
        " 1:32 1*v0 = 1 mod 2 3:13 1*v1 = 1 mod 2",
    ),
    (
        "(define-fun f ((q Bool) (x Int)) Bool (and q (>= x 0)))\n(declare-const p Bool)\n(assert (f (not p) 3))",
        " 1:44 1*v0 = 1 mod 2 1:46 -1*v1 <= 0 1:39 and(1,2) 3:17 1*v2 = 1 mod 2 3:12 not(4) 3:9 true 3:9 and(5,6)",
    ),
    (
        "(declare-const p Bool)\n(define-fun f ((x Int)) Bool (and p (= x 0)))\n(assert (f 0))",
        " 2:35 1*v0 = 1 mod 2 2:37 1*v1 = 0 2:30 and(1,2) 3:9 1*v0 = 1 mod 2 3:9 true 3:9 and(4,5)",
    ),
    (
        "(define-fun f ((a Bool)) Bool (not a))\n(define-fun g ((b Bool)) Bool (f (f b)))",
        " 1:36 1*v0 = 1 mod 2 1:31 not(1) 2:37 1*v1 = 1 mod 2 2:34 not(3) 2:31 not(4)",
    ),
    (
        "(define-fun f ((a Bool)) Bool (exists ((b Bool)) (xor a b)))\n(declare-const p Bool)\n(assert (f p))",
        " 1:55 1*v0 = 1 mod 2 1:57 1*v1 = 1 mod 2 1:50 xor(1,2) 1:31 exists(v1,3) 3:12 1*v2 = 1 mod 2 3:9 1*v1 = 1 mod 2 3:9 xor(5,6) 3:9 exists(v1,7)",
    ),
];

#[test]
fn nodes_of_sorts(rt: HostRuntime) -> Result<(), Fail> {
    make_all(&rt, rt.alloc(), &NODES_OF_SORTS)
}

/// Texts, each with its commands.
const COMMANDS_OF_SORTS: [(&str, &str); 2] = [
    (
        "(declare-const p Bool)\n(declare-fun q () Bool)\n(declare-const x Int)\n(assert true)\n(get-value (p x))",
        " 1:1 declare p 0 Bool 2:1 declare q 1 Bool 3:1 declare x 2 4:1 assert 1 1 5:1 get-value p 0 Bool x 2",
    ),
    (
        "(define-fun f ((q Bool) (x Int)) Bool (and q (>= x 0)))\n(set-member f true 3)\n(set-member f |false| (- 3))\n(set-empty f)\n(set-equal f f)",
        " 1:1 define f 0 Bool 1 Bool 3 2:1 set-member [ 0 1 | 3 ] 1 3 3:1 set-member [ 0 1 | 3 ] 0 -3 4:1 set-empty [ 0 1 | 3 ] 5:1 set-equal [ 0 1 | 3 ] [ 0 1 | 3 ]",
    ),
];

#[test]
fn commands_of_sorts(rt: HostRuntime) -> Result<(), Fail> {
    read_all(&rt, rt.alloc(), &COMMANDS_OF_SORTS)
}

#[test]
fn sorts_of_variables(rt: HostRuntime) -> Result<(), Fail> {
    let alloc = rt.alloc();
    let text = b"(define-fun f ((x Int) (q Bool)) Bool (exists ((r Bool) (y Int)) r))";
    let mut reader = Reader::new(text);
    let mut scope = Scope::new(alloc)?;
    assert!(&rt; scope.given() <= 1 << 31);
    let Ok(Some(_)) = reader.next_command(alloc, &mut scope) else {
        panic!(&rt; "no command was read");
    };
    for (v, sort) in [
        (0, Sort::Int),
        (1, Sort::Bool),
        (2, Sort::Bool),
        (3, Sort::Int),
    ] {
        assert!(&rt; v < scope.given());
        assert_eq!(&rt; scope.sort(v), sort);
    }
    Ok(())
}
