//! Scripts of definitions and set commands.
use super::expect_all;
use std::test::Fail;

/// Definitions that stand on others. Words, a script, and its output.
const DEFINITIONS_OF_DEFINITIONS: [(&str, &str, &str); 10] = [
    (
        "",
        "(define-fun e ((x Int)) Bool ((_ divisible 2) x))(define-fun f ((x Int)) Bool (and (e x) ((_ divisible 3) x)))(set-equal f f)(set-member f 6)(set-member f 3)",
        "true\ntrue\nfalse\n",
    ),
    (
        "",
        "(define-fun e ((x Int)) Bool ((_ divisible 2) x))(define-fun f ((x Int)) Bool (e (+ x 1)))(set-member f 1)(set-member f 2)(set-equal e f)",
        "true\nfalse\nfalse\n",
    ),
    (
        "",
        "(define-fun e ((x Int)) Bool ((_ divisible 2) x))(define-fun o ((x Int)) Bool (not (e x)))(define-fun n ((x Int)) Bool (not (o x)))(set-equal e n)(set-equal e o)",
        "true\nfalse\n",
    ),
    (
        "",
        "(define-fun d ((x Int)) Int (* 2 x))(define-fun q ((x Int)) Int (d (d x)))(define-fun p ((x Int) (y Int)) Bool (= y (q x)))(set-member p 3 12)(set-member p 3 6)",
        "true\nfalse\n",
    ),
    (
        "",
        "(define-fun a ((x Int) (y Int)) Bool (< x y))(define-fun b ((x Int) (y Int)) Bool (a y x))(set-equal a b)(set-member b 2 1)(set-member b 1 2)",
        "false\ntrue\nfalse\n",
    ),
    (
        "",
        "(define-fun a ((x Int) (y Int)) Int (- x y))(define-fun b ((y Int) (x Int)) Bool (= (a y x) 3))(set-member b 5 2)(set-member b 2 5)",
        "true\nfalse\n",
    ),
    (
        "",
        "(define-fun e ((x Int)) Bool ((_ divisible 2) x))(define-fun t ((x Int)) Bool (exists ((k Int)) (and (e k) (= x (+ k 1)))))(set-member t 7)(set-member t 8)",
        "true\nfalse\n",
    ),
    (
        "",
        "(define-fun s ((x Int) (y Int)) Bool (= y (+ x 1)))(define-fun t ((x Int) (y Int)) Bool (exists ((z Int)) (and (s x z) (s z y))))(set-member t 4 6)(set-member t 4 5)",
        "true\nfalse\n",
    ),
    (
        "",
        "(define-fun s ((x Int) (y Int)) Bool (and (<= 0 x) (= y (+ x 2))))(define-fun r ((y Int)) Bool (exists ((x Int)) (s x y)))(define-fun g ((y Int)) Bool (>= y 2))(set-equal r g)(set-subset r g)",
        "true\ntrue\n",
    ),
    (
        "",
        "(define-fun e ((x Int)) Bool ((_ divisible 2) x))(define-fun f ((x Int)) Bool (=> (e x) (e (* 3 x))))(define-fun all ((x Int)) Bool true)(set-equal f all)(set-finite f)",
        "true\nfalse\n",
    ),
];

#[test]
fn definitions_of_definitions(rt: HostRuntime) -> Result<(), Fail> {
    expect_all(&rt, rt.alloc(), &DEFINITIONS_OF_DEFINITIONS)
}

/// Names that hide others, and where a definition is live. Words, a script, and its output.
const NAMES_OF_DEFINITIONS: [(&str, &str, &str); 10] = [
    (
        "",
        "(declare-const x Int)(define-fun p ((x Int)) Bool (> x 3))(set-member p 4)(set-member p 3)",
        "true\nfalse\n",
    ),
    (
        "",
        "(define-fun p ((x Int)) Bool (let ((x (+ x 1))) (= x 4)))(set-list p 5)",
        "((3))\n",
    ),
    (
        "",
        "(define-fun p ((x Int)) Bool (exists ((x Int)) (= x 4)))(set-finite p)(set-member p 9)",
        "false\ntrue\n",
    ),
    (
        "",
        "(define-fun p ((x Int) (y Int)) Bool (let ((x y) (y x)) (< x y)))(set-member p 2 1)(set-member p 1 2)",
        "true\nfalse\n",
    ),
    (
        "",
        "(push 1)(define-fun e ((x Int)) Bool ((_ divisible 2) x))(set-member e 2)(pop 1)(set-member e 2)",
        "true\n(error \"1:93: unknown symbol\")\n",
    ),
    (
        "",
        "(define-fun e ((x Int)) Bool ((_ divisible 2) x))(push 1)(define-fun f ((x Int)) Bool (not (e x)))(set-empty f)(pop 1)(set-empty e)(define-fun f ((x Int)) Bool false)(set-empty f)",
        "false\nfalse\ntrue\n",
    ),
    (
        "",
        "(define-fun e ((x Int)) Bool ((_ divisible 2) x))(reset)\n(set-empty e)",
        "(error \"2:12: unknown symbol\")\n",
    ),
    (
        "",
        "(define-fun e ((x Int)) Bool ((_ divisible 2) x))\n(define-fun e ((x Int)) Bool ((_ divisible 2) x))",
        "(error \"2:13: name already in use\")\n",
    ),
    (
        "",
        "(define-fun p ((x Int)) Bool (p x))",
        "(error \"1:31: unknown symbol\")\n",
    ),
    (
        "",
        "(define-fun p ((x Int) (x Int)) Bool true)",
        "(error \"1:25: name already in use\")\n",
    ),
];

#[test]
fn names_of_definitions(rt: HostRuntime) -> Result<(), Fail> {
    expect_all(&rt, rt.alloc(), &NAMES_OF_DEFINITIONS)
}

/// Parameters that a body leaves out, and definitions without any. Words, a script, and its output.
const UNUSED_PARAMETERS: [(&str, &str, &str); 11] = [
    (
        "",
        "(define-fun p ((x Int) (y Int)) Bool (= x 1))(set-member p 1 77)(set-member p 2 77)(set-finite p)(set-states p)",
        "true\nfalse\nfalse\n3\n",
    ),
    (
        "",
        "(define-fun p ((x Int) (y Int)) Bool (= y 1))(define-fun q ((x Int) (y Int)) Bool (= x 1))(set-equal p q)(set-subset p q)(set-member p 5 1)",
        "false\nfalse\ntrue\n",
    ),
    (
        "",
        "(define-fun p ((x Int) (y Int)) Bool false)(set-empty p)(set-finite p)(set-list p 3)(set-states p)",
        "true\ntrue\n()\n1\n",
    ),
    (
        "",
        "(define-fun p ((x Int) (y Int)) Bool true)(set-empty p)(set-finite p)(set-states p)(set-list p 4)",
        "false\nfalse\n1\n((0 0) ((- 1) 0) (0 (- 1)) ((- 1) (- 1)))\n",
    ),
    (
        "",
        "(define-fun p ((x Int) (y Int)) Bool (and (= x 1) (= x 2)))(define-fun q ((x Int) (y Int)) Bool false)(set-equal p q)",
        "true\n",
    ),
    (
        "",
        "(define-fun p ((x Int) (y Int) (z Int)) Bool (= y 0))(define-fun q ((x Int) (y Int) (z Int)) Bool (and (= y 0) (= z z)))(set-equal p q)(set-subset p q)",
        "true\ntrue\n",
    ),
    (
        "",
        "(define-fun t () Bool true)(define-fun f () Bool (not t))(set-empty t)(set-empty f)(set-equal t f)",
        "false\ntrue\nfalse\n",
    ),
    (
        "",
        "(define-fun t () Bool (= 1 1))(set-states t)(set-finite t)(set-member t)(set-list t 3)(set-subset t t)",
        "1\ntrue\ntrue\n(())\ntrue\n",
    ),
    (
        "",
        "(define-fun f () Bool false)(set-states f)(set-member f)(set-list f 3)",
        "1\nfalse\n()\n",
    ),
    (
        "",
        "(define-fun c () Int 7)(define-fun p ((x Int)) Bool (= x c))(set-list p 3)(set-states p)",
        "((7))\n5\n",
    ),
    (
        "",
        "(define-fun c () Int 7)\n(set-empty c)",
        "(error \"2:12: sort or number of arguments\")\n",
    ),
];

#[test]
fn unused_parameters(rt: HostRuntime) -> Result<(), Fail> {
    expect_all(&rt, rt.alloc(), &UNUSED_PARAMETERS)
}

/// Constants in a body. Words, a script, and its output.
const FREE_CONSTANTS: [(&str, &str, &str); 5] = [
    (
        "",
        "(declare-const c Int)(define-fun p ((x Int)) Bool (= x c))\n(set-empty p)",
        "(error \"2:12: unsupported\")\n",
    ),
    (
        "",
        "(declare-const c Int)(define-fun p ((x Int)) Bool (= x c))(assert (p 5))(check-sat)(get-value (c))",
        "sat\n((c 5))\n",
    ),
    (
        "",
        "(declare-const c Int)(define-fun p ((x Int)) Bool (exists ((c Int)) (= x (* 2 c))))(set-member p 4)(set-member p 5)",
        "true\nfalse\n",
    ),
    (
        "",
        "(declare-const c Int)(define-fun g ((x Int)) Int (+ x c))(assert (= (g 1) 4))(check-sat)(get-model)",
        "sat\n(\n  (define-fun c () Int 3)\n)\n",
    ),
    (
        "",
        "(declare-const c Int)(define-fun p ((x Int)) Bool (= c c))(set-empty p)",
        "false\n",
    ),
];

#[test]
fn free_constants(rt: HostRuntime) -> Result<(), Fail> {
    expect_all(&rt, rt.alloc(), &FREE_CONSTANTS)
}

/// Wrong numbers and sorts of arguments. Words, a script, and its output.
const FAULTY_USES: [(&str, &str, &str); 10] = [
    (
        "",
        "(define-fun e ((x Int)) Bool ((_ divisible 2) x))\n(assert (e 1 2))",
        "(error \"2:9: sort or number of arguments\")\n",
    ),
    (
        "",
        "(define-fun e ((x Int)) Bool ((_ divisible 2) x))\n(assert (e))",
        "(error \"2:9: sort or number of arguments\")\n",
    ),
    (
        "",
        "(define-fun e ((x Int)) Bool ((_ divisible 2) x))\n(set-member e)",
        "(error \"2:1: sort or number of arguments\")\n",
    ),
    (
        "",
        "(define-fun e ((x Int)) Bool ((_ divisible 2) x))\n(set-member e 1 2)",
        "(error \"2:1: sort or number of arguments\")\n",
    ),
    (
        "",
        "(define-fun e ((x Int)) Bool ((_ divisible 2) x))(define-fun f ((x Int) (y Int)) Bool true)\n(set-equal e f)",
        "(error \"2:14: sort or number of arguments\")\n",
    ),
    (
        "",
        "(define-fun e ((x Int)) Bool ((_ divisible 2) x))(define-fun f ((x Int) (y Int)) Bool true)\n(set-subset e f)",
        "(error \"2:15: sort or number of arguments\")\n",
    ),
    (
        "",
        "(define-fun e ((x Int)) Bool ((_ divisible 2) x))\n(assert (e true))",
        "(error \"2:12: sort or number of arguments\")\n",
    ),
    (
        "",
        "(define-fun e ((x Int)) Bool ((_ divisible 2) x))\n(set-list e 1001)",
        "(error \"2:13: unsupported\")\n",
    ),
    (
        "",
        "\n(set-empty nothing)",
        "(error \"2:12: unknown symbol\")\n",
    ),
    (
        "",
        "(declare-const c Int)\n(set-empty c)",
        "(error \"2:12: sort or number of arguments\")\n",
    ),
];

#[test]
fn faulty_uses(rt: HostRuntime) -> Result<(), Fail> {
    expect_all(&rt, rt.alloc(), &FAULTY_USES)
}

/// What each command says. Words, a script, and its output.
const SET_COMMANDS: [(&str, &str, &str); 14] = [
    (
        "",
        "(define-fun p ((x Int)) Bool (>= x 0))(define-fun q ((x Int)) Bool (<= 0 x 3))(define-fun r ((x Int)) Bool (and (> x 0) (< x 0)))(define-fun m ((x Int)) Bool (= x (- 1)))(set-finite p)(set-finite q)(set-finite r)(set-finite m)(set-empty r)(set-subset q p)(set-member p (- 1))(set-list q 10)(set-list r 10)",
        "false\ntrue\ntrue\ntrue\ntrue\ntrue\nfalse\n((0) (1) (2) (3))\n()\n",
    ),
    (
        "",
        "(define-fun e1 ((x Int)) Bool (exists ((k Int)) (= x (* 2 k))))(define-fun e2 ((x Int)) Bool ((_ divisible 2) x))(set-equal e1 e2)(set-states e1)(set-states e2)",
        "true\n3\n3\n",
    ),
    (
        "",
        "(define-fun p ((x Int)) Bool (<= (- 2) x 2))(set-list p 10)(set-list p 2)(set-list p 0)",
        "((0) ((- 1)) ((- 2)) (1) (2))\n((0) ((- 1)))\n()\n",
    ),
    (
        "",
        "(define-fun p ((x Int) (y Int)) Bool (and (<= 0 x 1) (<= 0 y 1)))(set-list p 10)(set-list p 3)",
        "((0 0) (1 0) (0 1) (1 1))\n((0 0) (1 0) (0 1))\n",
    ),
    (
        "",
        "(define-fun p ((x Int) (y Int)) Bool (= (+ x y) 1))(set-list p 6)(set-finite p)",
        "((1 0) (0 1) ((- 1) 2) (3 (- 2)) ((- 2) 3) (2 (- 1)))\nfalse\n",
    ),
    (
        "",
        "(define-fun p ((x Int)) Bool (exists ((k Int)) (= x (+ 1 (* 4 k)))))(set-list p 5)(set-states p)(set-finite p)",
        "((1) ((- 3)) ((- 7)) (5) ((- 15)))\n4\nfalse\n",
    ),
    (
        "",
        "(define-fun p ((x Int) (y Int)) Bool (and (<= 0 x) (<= x y) (<= y 3)))(set-finite p)(set-list p 20)",
        "true\n((0 0) (0 1) (1 1) (0 2) (2 2) (1 2) (0 3) (2 3) (1 3) (3 3))\n",
    ),
    (
        "",
        "(define-fun p ((x Int) (y Int)) Bool (and (<= 0 x 3)))(set-finite p)",
        "false\n",
    ),
    (
        "",
        "(define-fun p ((x Int)) Bool (or (= x 5) (>= x 100)))(set-finite p)(set-list p 3)",
        "false\n((5) (112) (104))\n",
    ),
    (
        "",
        "(define-fun p ((x Int)) Bool (or (= x (- 1)) (= x 0)))(set-states p)(set-finite p)(set-list p 5)",
        "4\ntrue\n((0) ((- 1)))\n",
    ),
    (
        "",
        "(define-fun p ((x Int)) Bool ((_ divisible 3) x))(define-fun q ((x Int)) Bool ((_ divisible 6) x))(set-subset q p)(set-subset p q)(set-equal p q)",
        "true\nfalse\nfalse\n",
    ),
    (
        "",
        "(define-fun p ((x Int) (y Int)) Bool (< x y))(define-fun q ((x Int) (y Int)) Bool (<= x y))(set-subset p q)(set-subset q p)(set-member p (- 5) (- 4))",
        "true\nfalse\ntrue\n",
    ),
    (
        "",
        "(set-option :print-success true)(define-fun e ((x Int)) Bool ((_ divisible 2) x))(set-empty e)(set-option :print-success false)(define-fun f ((x Int)) Bool true)(set-empty f)",
        "success\nsuccess\nfalse\nfalse\n",
    ),
    (
        "",
        "(define-fun w ((x Int)) Bool (= x 4611686018427387904))(define-fun v ((x Int)) Bool (exists ((y Int)) (and (w y) (= x (* 1024 y)))))(set-list v 1)(set-member w 4611686018427387904)",
        "((4722366482869645213696))\ntrue\n",
    ),
];

#[test]
fn set_commands(rt: HostRuntime) -> Result<(), Fail> {
    expect_all(&rt, rt.alloc(), &SET_COMMANDS)
}

/// State bounds at the cost and one below it. Words, a script, and its output.
const BOUNDS: [(&str, &str, &str); 8] = [
    (
        "--states=12",
        "(define-fun p ((x Int)) Bool (= x 1000))(set-states p)",
        "12\n",
    ),
    (
        "--states=11",
        "\n(define-fun p ((x Int)) Bool (= x 1000))\n(set-states p)",
        "(error \"2:30: state bound 11 exceeded\")\n",
    ),
    (
        "--states=11",
        "(define-fun p ((x Int)) Bool (= x 1000))(define-fun q ((x Int)) Bool true)(set-empty q)\n(set-equal q p)",
        "false\n(error \"1:30: state bound 11 exceeded\")\n",
    ),
    (
        "--states=3",
        "(define-fun e ((x Int)) Bool ((_ divisible 2) x))(set-states e)(set-equal e e)(set-subset e e)",
        "3\ntrue\ntrue\n",
    ),
    (
        "--states=2",
        "\n(define-fun e ((x Int)) Bool ((_ divisible 2) x))\n(set-states e)",
        "(error \"2:30: state bound 2 exceeded\")\n",
    ),
    (
        "--states=1",
        "(define-fun t ((x Int)) Bool true)(set-empty t)(set-equal t t)",
        "false\ntrue\n",
    ),
    (
        "--states=15",
        "(define-fun p ((x Int)) Bool ((_ divisible 3) x))(define-fun q ((x Int)) Bool ((_ divisible 5) x))\n(set-subset p q)",
        "false\n",
    ),
    (
        "--states=14",
        "(define-fun p ((x Int)) Bool ((_ divisible 3) x))(define-fun q ((x Int)) Bool ((_ divisible 5) x))\n(set-subset p q)",
        "(error \"2:1: state bound 14 exceeded\")\n",
    ),
];

#[test]
fn bounds(rt: HostRuntime) -> Result<(), Fail> {
    expect_all(&rt, rt.alloc(), &BOUNDS)
}

/// Sets between questions for models. Words, a script, and its output.
const SETS_AND_MODELS: [(&str, &str, &str); 3] = [
    (
        "",
        "(define-fun e ((x Int)) Bool ((_ divisible 2) x))(declare-const x Int)(assert (and (e x) (> x 2)))(check-sat)(set-empty e)(get-value (x))",
        "sat\nfalse\n((x 4))\n",
    ),
    (
        "",
        "(declare-const x Int)(assert (= x 1))(check-sat)(define-fun e ((x Int)) Bool ((_ divisible 2) x))\n(get-value (x))",
        "sat\n(error \"2:1: no model\")\n",
    ),
    (
        "",
        "(declare-const x Int)(define-fun p ((y Int)) Bool (< y x))(assert (not (p 3)))(assert (p 2))(check-sat)(get-value (x))",
        "sat\n((x 3))\n",
    ),
];

#[test]
fn sets_and_models(rt: HostRuntime) -> Result<(), Fail> {
    expect_all(&rt, rt.alloc(), &SETS_AND_MODELS)
}
