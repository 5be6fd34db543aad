//! Nodes of terms, in order of making.
use super::outline::make_all;
use std::test::Fail;

/// Texts, each with the nodes that it makes behind node 0, in order.
const NODES_OF_EACH_TERM: [(&str, &str); 32] = [
    (
        "(declare-const x Int)\n(assert (=> (= x 1) (= x 2) (= x 3)))",
        " 2:13 1*v0 = 1 2:21 1*v0 = 2 2:29 1*v0 = 3 2:9 not(2) 2:9 or(4,3) 2:9 not(1) 2:9 or(6,5)",
    ),
    (
        "(assert (and true false true))",
        " 1:14 true 1:19 false 1:25 true 1:9 and(1,2) 1:9 and(4,3)",
    ),
    ("(assert (or (and (xor true))))", " 1:23 true"),
    (
        "(assert (ite true false true))",
        " 1:14 true 1:19 false 1:25 true 1:9 and(1,2) 1:9 not(1) 1:9 and(5,3) 1:9 or(4,6)",
    ),
    (
        "(declare-const x Int)\n(assert (<= 0 x 3))",
        " 2:9 -1*v0 <= 0 2:9 1*v0 <= 3 2:9 and(1,2)",
    ),
    (
        "(declare-const x Int)\n(assert (> x 1))",
        " 2:9 -1*v0 <= -2",
    ),
    (
        "(declare-const x Int)\n(assert (>= x 1))",
        " 2:9 -1*v0 <= -1",
    ),
    ("(declare-const x Int)\n(assert (< x 1))", " 2:9 1*v0 <= 0"),
    (
        "(declare-const x Int)\n(declare-const y Int)\n(assert (= (* 2 x) y 7))",
        " 3:9 2*v0 -1*v1 = 0 3:9 1*v1 = 7 3:9 and(1,2)",
    ),
    ("(assert (= 1 1))", " 1:9 true"),
    ("(assert (< 2 1))", " 1:9 false"),
    (
        "(assert (distinct 1 2 3))",
        " 1:9 false 1:9 not(1) 1:9 false 1:9 not(3) 1:9 and(2,4) 1:9 false 1:9 not(6) 1:9 and(5,7)",
    ),
    (
        "(assert (distinct true false))",
        " 1:19 true 1:24 false 1:9 xor(1,2)",
    ),
    (
        "(assert (= true false))",
        " 1:12 true 1:17 false 1:9 iff(1,2)",
    ),
    (
        "(declare-const x Int)\n(assert ((_ divisible 3) (+ x 5)))",
        " 2:9 1*v0 = 1 mod 3",
    ),
    ("(assert ((_ divisible 3) 6))", " 1:9 true"),
    (
        "(declare-const x Int)\n(declare-const y Int)\n(assert (= (+ x (- y) (* 3 (- x 2)) 4) 0))",
        " 3:9 4*v0 -1*v1 = 2",
    ),
    ("(declare-const x Int)\n(assert (= x x))", " 2:9 true"),
    (
        "(assert (exists ((x Int) (y Int)) (and (= x 1) (= y 2))))",
        " 1:40 1*v0 = 1 1:48 1*v1 = 2 1:35 and(1,2) 1:9 exists(v1,3) 1:9 exists(v0,4)",
    ),
    ("(assert (exists ((x Int)) true))", " 1:27 true"),
    (
        "(declare-const y Int)\n(assert (forall ((x Int)) (= x y)))",
        " 2:27 -1*v0 1*v1 = 0 2:9 not(1) 2:9 exists(v1,2) 2:9 not(3)",
    ),
    (
        "(assert (exists ((x Int) (x Int)) (= x 1)))",
        " 1:35 1*v1 = 1 1:9 exists(v1,1)",
    ),
    (
        "(declare-const x Int)\n(assert (let ((x 1) (y x)) (= y 7)))",
        " 2:28 1*v0 = 7",
    ),
    ("(assert (! (and true) :named a :b))", " 1:17 true"),
    (
        "(assert (let ((b true)) (and b b)))",
        " 1:18 true 1:25 and(1,1)",
    ),
    (
        "(assert true)\n(assert false)",
        " 1:9 true 2:9 false 2:1 and(1,2)",
    ),
    (
        "(define-fun p ((a Int)) Bool (and (> a 0) (exists ((k Int)) (= a (* 2 k)))))\n(declare-const x Int)\n(assert (p (+ x 1)))",
        " 1:35 -1*v0 <= -1 1:61 1*v0 -2*v1 = 0 1:43 exists(v1,2) 1:30 and(1,3) 3:9 -1*v2 <= 0 3:9 -2*v1 1*v2 = -1 3:9 exists(v1,6) 3:9 and(5,7)",
    ),
    (
        "(define-fun t () Bool false)\n(assert (or t t))",
        " 1:23 false 2:9 or(1,1)",
    ),
    (
        "(define-fun f ((a Int) (b Int)) Int (- a b))\n(declare-const x Int)\n(declare-const y Int)\n(assert (= (f y x) 0))",
        " 4:9 -1*v2 1*v3 = 0",
    ),
    (
        "(define-fun g ((a Int) (b Int)) Bool (< a b))\n(define-fun h ((a Int) (b Int)) Bool (g b a))",
        " 1:38 1*v0 -1*v1 <= -1 2:38 -1*v2 1*v3 <= -1",
    ),
    (
        "(define-fun p ((a Int)) Bool (= a 3))\n(assert (p 3))\n(assert (p 4))",
        " 1:30 1*v0 = 3 2:9 true 3:9 false 3:1 and(2,3)",
    ),
    (
        "(define-fun p ((a Int)) Bool ((_ divisible 3) a))\n(declare-const x Int)\n(assert (p (+ x 4)))",
        " 1:30 1*v0 = 0 mod 3 3:9 1*v1 = 2 mod 3",
    ),
];

#[test]
fn nodes_of_each_term(rt: HostRuntime) -> Result<(), Fail> {
    make_all(&rt, rt.alloc(), &NODES_OF_EACH_TERM)
}

/// Texts, each with the nodes that it makes behind node 0, in order.
const NODES_OF_ATOMS: [(&str, &str); 29] = [
    ("(declare-const x Int)\n(assert (= x 5))", " 2:9 1*v0 = 5"),
    ("(declare-const x Int)\n(assert (= 5 x))", " 2:9 -1*v0 = -5"),
    (
        "(declare-const x Int)\n(assert (<= (* 2 x) 5))",
        " 2:9 2*v0 <= 5",
    ),
    (
        "(declare-const x Int)\n(assert (< 5 x))",
        " 2:9 -1*v0 <= -6",
    ),
    ("(declare-const x Int)\n(assert (>= 5 x))", " 2:9 1*v0 <= 5"),
    ("(declare-const x Int)\n(assert (> 5 x))", " 2:9 1*v0 <= 4"),
    (
        "(declare-const x Int)\n(assert (> 3 x 1))",
        " 2:9 1*v0 <= 2 2:9 -1*v0 <= -2 2:9 and(1,2)",
    ),
    (
        "(declare-const x Int)\n(assert (>= x 1 2))",
        " 2:9 -1*v0 <= -1 2:9 false 2:9 and(1,2)",
    ),
    (
        "(declare-const x Int)\n(assert (= x 1 x 2))",
        " 2:9 1*v0 = 1 2:9 -1*v0 = -1 2:9 and(1,2) 2:9 1*v0 = 2 2:9 and(3,4)",
    ),
    ("(assert (< 1 1))", " 1:9 false"),
    ("(assert (<= 1 1))", " 1:9 true"),
    ("(assert (>= 1 2))", " 1:9 false"),
    ("(assert (> 2 1))", " 1:9 true"),
    ("(assert (= 1 2))", " 1:9 false"),
    ("(declare-const x Int)\n(assert (< x x))", " 2:9 false"),
    ("(assert (= (- (- 9223372036854775807) 1) 0))", " 1:9 false"),
    ("(assert (< (- (- 9223372036854775807) 1) 0))", " 1:9 true"),
    ("(assert (> 9223372036854775807 0))", " 1:9 true"),
    ("(assert (>= 9223372036854775807 0))", " 1:9 true"),
    (
        "(declare-const x Int)\n(assert (< (+ x 9223372036854775807) 0))",
        " 2:9 1*v0 <= -9223372036854775808",
    ),
    (
        "(declare-const x Int)\n(assert (< (+ x (- (- 9223372036854775807) 1)) 0))",
        " 2:9 1*v0 <= 9223372036854775807",
    ),
    (
        "(declare-const x Int)\n(assert (= (+ x 9223372036854775807) 0))",
        " 2:9 1*v0 = -9223372036854775807",
    ),
    (
        "(declare-const x Int)\n(assert ((_ divisible 1) x))",
        " 2:9 1*v0 = 0 mod 1",
    ),
    (
        "(declare-const x Int)\n(assert ((_ divisible 9223372036854775807) (- x 1)))",
        " 2:9 1*v0 = 1 mod 9223372036854775807",
    ),
    (
        "(declare-const x Int)\n(assert ((_ divisible 3) (+ x (- (- 9223372036854775807) 1))))",
        " 2:9 1*v0 = 2 mod 3",
    ),
    (
        "(declare-const x Int)\n(assert ((_ |divisible| 3) (- (* 5 x) 7)))",
        " 2:9 5*v0 = 1 mod 3",
    ),
    ("(assert ((_ divisible 3) 7))", " 1:9 false"),
    ("(assert ((_ divisible 3) (- 6)))", " 1:9 true"),
    (
        "(declare-const x Int)\n(assert ((_ divisible 5) (- x x)))",
        " 2:9 true",
    ),
];

#[test]
fn nodes_of_atoms(rt: HostRuntime) -> Result<(), Fail> {
    make_all(&rt, rt.alloc(), &NODES_OF_ATOMS)
}

/// Texts, each with the nodes that it makes behind node 0, in order.
const NODES_OF_SUMS: [(&str, &str); 13] = [
    (
        "(declare-const x Int)\n(assert (= (+ x) 0))",
        " 2:9 1*v0 = 0",
    ),
    (
        "(declare-const x Int)\n(assert (= (* x) 0))",
        " 2:9 1*v0 = 0",
    ),
    (
        "(declare-const x Int)\n(assert (= (- x) 0))",
        " 2:9 -1*v0 = 0",
    ),
    (
        "(declare-const x Int)\n(assert (= (- 10 x 3 x) 0))",
        " 2:9 -2*v0 = -7",
    ),
    (
        "(declare-const x Int)\n(assert (= (* 2 x 3) 0))",
        " 2:9 6*v0 = 0",
    ),
    (
        "(declare-const x Int)\n(assert (= (* (+ x 1) (- 3)) 0))",
        " 2:9 -3*v0 = 3",
    ),
    ("(declare-const x Int)\n(assert (= (* x 0) 0))", " 2:9 true"),
    (
        "(declare-const x Int)\n(assert (= (* (* x 0) x) 0))",
        " 2:9 true",
    ),
    (
        "(declare-const x Int)\n(assert (= (* x (- x x) x) 1))",
        " 2:9 false",
    ),
    (
        "(declare-const x Int)\n(assert (= (* x 0 x) 0))",
        " 2:9 true",
    ),
    (
        "(declare-const x Int)\n(assert (= (* 4611686018427387904 (- 2) x) 1))",
        " 2:9 -9223372036854775808*v0 = 1",
    ),
    (
        "(declare-const x Int)\n(declare-const y Int)\n(assert (= (+ y x) 1))",
        " 3:9 1*v0 1*v1 = 1",
    ),
    (
        "(declare-const x Int)\n(declare-const y Int)\n(assert (= (- (+ y x 2) (+ x 9)) 1))",
        " 3:9 1*v1 = 8",
    ),
];

#[test]
fn nodes_of_sums(rt: HostRuntime) -> Result<(), Fail> {
    make_all(&rt, rt.alloc(), &NODES_OF_SUMS)
}

/// Texts, each with the nodes that it makes behind node 0, in order.
const NODES_OF_CONNECTIVES: [(&str, &str); 12] = [
    ("(assert true)", " 1:9 true"),
    ("(assert false)", " 1:9 false"),
    ("(assert |true|)", " 1:9 true"),
    (
        "(assert (not (not false)))",
        " 1:19 false 1:14 not(1) 1:9 not(2)",
    ),
    ("(assert (and true))", " 1:14 true"),
    (
        "(assert (or true false true))",
        " 1:13 true 1:18 false 1:24 true 1:9 or(1,2) 1:9 or(4,3)",
    ),
    (
        "(assert (xor true false true))",
        " 1:14 true 1:19 false 1:25 true 1:9 xor(1,2) 1:9 xor(4,3)",
    ),
    (
        "(assert (=> true false))",
        " 1:13 true 1:18 false 1:9 not(1) 1:9 or(3,2)",
    ),
    (
        "(assert (= true false true))",
        " 1:12 true 1:17 false 1:23 true 1:9 iff(1,2) 1:9 iff(2,3) 1:9 and(4,5)",
    ),
    (
        "(assert (distinct true false true))",
        " 1:19 true 1:24 false 1:30 true 1:9 xor(1,2) 1:9 xor(1,3) 1:9 and(4,5) 1:9 xor(2,3) 1:9 and(6,7)",
    ),
    (
        "(declare-const x Int)\n(assert (distinct x 1))",
        " 2:9 1*v0 = 1 2:9 not(1)",
    ),
    (
        "(assert (ite false true true))",
        " 1:14 false 1:20 true 1:25 true 1:9 and(1,2) 1:9 not(1) 1:9 and(5,3) 1:9 or(4,6)",
    ),
];

#[test]
fn nodes_of_connectives(rt: HostRuntime) -> Result<(), Fail> {
    make_all(&rt, rt.alloc(), &NODES_OF_CONNECTIVES)
}

/// Texts, each with the nodes that it makes behind node 0, in order.
const NODES_OF_BINDERS: [(&str, &str); 13] = [
    (
        "(assert (forall ((x Int)) true))",
        " 1:27 true 1:9 not(1) 1:9 not(2)",
    ),
    (
        "(assert (forall ((x Int) (y Int)) (= x y)))",
        " 1:35 1*v0 -1*v1 = 0 1:9 not(1) 1:9 exists(v1,2) 1:9 exists(v0,3) 1:9 not(4)",
    ),
    (
        "(declare-const x Int)\n(assert (exists ((x Int)) (= x 1)))",
        " 2:27 1*v1 = 1 2:9 exists(v1,1)",
    ),
    (
        "(assert (exists ((x Int) (y Int)) (= x 1)))",
        " 1:35 1*v0 = 1 1:9 exists(v0,1)",
    ),
    (
        "(assert (exists ((x Int)) (exists ((x Int)) (= x 1))))",
        " 1:45 1*v1 = 1 1:27 exists(v1,1)",
    ),
    (
        "(assert (exists ((x Int)) (and (exists ((x Int)) (= x 1)) (= x 2))))",
        " 1:50 1*v1 = 1 1:32 exists(v1,1) 1:59 1*v0 = 2 1:27 and(2,3) 1:9 exists(v0,4)",
    ),
    (
        "(assert (let ((x 1) (y 2)) (let ((x y) (y x)) (< x y))))",
        " 1:47 false",
    ),
    (
        "(assert (let ((x true)) (let ((x (not x))) (and x x))))",
        " 1:18 true 1:34 not(1) 1:44 and(2,2)",
    ),
    (
        "(declare-const x Int)\n(assert (= (let ((y (+ x 1))) (+ y y)) 0))",
        " 2:9 2*v0 = -2",
    ),
    (
        "(declare-const x Int)\n(assert (= (! x :a 9223372036854775808 :b) (! 1 :c (x y))))",
        " 2:9 1*v0 = 1",
    ),
    (
        "(assert (let ((unused (not true))) false))",
        " 1:28 true 1:23 not(1) 1:36 false",
    ),
    (
        "(define-fun f ((a Int)) Int a)\n(assert (exists ((f Int)) (= f 1)))",
        " 2:27 1*v1 = 1 2:9 exists(v1,1)",
    ),
    (
        "(define-fun f ((a Int)) Int a)\n(assert (let ((f 1)) (= f 1)))",
        " 2:22 true",
    ),
];

#[test]
fn nodes_of_binders(rt: HostRuntime) -> Result<(), Fail> {
    make_all(&rt, rt.alloc(), &NODES_OF_BINDERS)
}

/// Texts, each with the nodes that it makes behind node 0, in order.
const NODES_OF_COPIES: [(&str, &str); 14] = [
    (
        "(define-fun p ((a Int)) Bool (let ((u (= a 1))) (> a 0)))\n(declare-const x Int)\n(assert (p x))",
        " 1:39 1*v0 = 1 1:49 -1*v0 <= -1 3:9 -1*v1 <= -1",
    ),
    (
        "(define-fun p ((a Int)) Bool (let ((u (= a 1))) (and u u)))\n(declare-const x Int)\n(assert (p x))",
        " 1:39 1*v0 = 1 1:49 and(1,1) 3:9 1*v1 = 1 3:9 and(3,3)",
    ),
    (
        "(define-fun t () Bool false)\n(define-fun p ((a Int)) Bool (or t (> a 0)))\n(assert (p 1))",
        " 1:23 false 2:36 -1*v0 <= -1 2:30 or(1,2) 3:9 false 3:9 true 3:9 or(4,5)",
    ),
    (
        "(define-fun p ((a Int)) Bool (= (not (= a 1)) true))\n(declare-const x Int)\n(assert (p (* 2 x)))",
        " 1:38 1*v0 = 1 1:33 not(1) 1:47 true 1:30 iff(2,3) 3:9 2*v1 = 1 3:9 not(5) 3:9 true 3:9 iff(6,7)",
    ),
    (
        "(define-fun p ((a Int)) Bool (xor (= a 1) false))\n(declare-const x Int)\n(assert (p (- x)))",
        " 1:35 1*v0 = 1 1:43 false 1:30 xor(1,2) 3:9 -1*v1 = 1 3:9 false 3:9 xor(4,5)",
    ),
    (
        "(define-fun p ((a Int)) Bool (= a 1))\n(define-fun q ((b Int)) Bool (and (p (+ b 1)) (p 1)))\n(assert (q 0))",
        " 1:30 1*v0 = 1 2:35 1*v1 = 0 2:47 true 2:30 and(2,3) 3:9 true 3:9 true 3:9 and(5,6)",
    ),
    (
        "(declare-const x Int)\n(define-fun p ((a Int)) Bool (= a (+ x 1)))\n(assert (p x))",
        " 2:30 -1*v0 1*v1 = 1 3:9 false",
    ),
    (
        "(declare-const x Int)\n(define-fun p ((a Int)) Bool (<= (+ a a x) 0))\n(assert (p (- 3 x)))",
        " 2:30 1*v0 2*v1 <= 0 3:9 -1*v0 <= -6",
    ),
    (
        "(define-fun p ((a Int)) Bool (forall ((k Int)) (= a k)))\n(assert (p 5))",
        " 1:48 1*v0 -1*v1 = 0 1:30 not(1) 1:30 exists(v1,2) 1:30 not(3) 2:9 -1*v1 = -5 2:9 not(5) 2:9 exists(v1,6) 2:9 not(7)",
    ),
    (
        "(define-fun p ((a Int)) Bool ((_ divisible 4) (+ a 1)))\n(assert (p 7))\n(assert (p (- 2)))",
        " 1:30 1*v0 = 3 mod 4 2:9 true 3:9 false 3:1 and(2,3)",
    ),
    (
        "(define-fun p ((a Int)) Bool (= a (- 9223372036854775807)))\n(assert (p 5))",
        " 1:30 1*v0 = -9223372036854775807 2:9 false",
    ),
    (
        "(define-fun p ((a Int)) Bool (<= a (- 9223372036854775807)))\n(assert (p (- 9223372036854775807)))\n(assert (p 9223372036854775807))",
        " 1:30 1*v0 <= -9223372036854775807 2:9 true 3:9 false 3:1 and(2,3)",
    ),
    (
        "(define-fun p ((a Int)) Bool (<= a 9223372036854775807))\n(assert (p (- 9)))",
        " 1:30 1*v0 <= 9223372036854775807 2:9 true",
    ),
    (
        "(define-fun p ((a Int) (b Int)) Bool (< a 1))\n(assert (p 0 9223372036854775807))",
        " 1:38 1*v0 <= 0 2:9 true",
    ),
];

#[test]
fn nodes_of_copies(rt: HostRuntime) -> Result<(), Fail> {
    make_all(&rt, rt.alloc(), &NODES_OF_COPIES)
}
