//! Commands with what they carry.
use super::outline::read_all;
use std::test::Fail;

/// Texts, each with its commands.
const COMMANDS_OF_EACH_KIND: [(&str, &str); 13] = [
    (
        "(set-logic LIA)\n(set-logic QF_LIA)\n(set-logic ALL)",
        " 1:1 set-logic 2:1 set-logic 3:1 set-logic",
    ),
    (
        "(set-info :status sat)\n(set-info :a)\n(set-info :a ())\n(set-info :a \"x\")",
        " 1:1 set-info 2:1 set-info 3:1 set-info 4:1 set-info",
    ),
    (
        "(set-option :print-success true)\n(set-option :print-success false)\n(set-option :print-success)\n(set-option :print-success 1)\n(set-option :other true)",
        " 1:1 set-option true 2:1 set-option false 3:1 set-option 4:1 set-option 5:1 set-option",
    ),
    (
        "(declare-const x Int)\n(declare-fun y () Int)\n(declare-const |a b| Int)\n(declare-const push Int)",
        " 1:1 declare x 0 2:1 declare y 1 3:1 declare a b 2 4:1 declare push 3",
    ),
    (
        "(push)\n(push 3)\n(pop)\n(pop 2)\n(push 0)\n(push 9223372036854775807)\n(reset)\n(exit)",
        " 1:1 push 1 2:1 push 3 3:1 pop 1 4:1 pop 2 5:1 push 0 6:1 push 9223372036854775807 7:1 reset 8:1 exit",
    ),
    (
        "(echo \"a\"\"b\")(check-sat)(get-model)",
        " 1:1 echo \"a\"\"b\" 1:14 check-sat 1:25 get-model",
    ),
    (
        "(declare-const x Int)\n(push 1)\n(declare-const y Int)\n(assert (= x y))\n(get-value (y x))\n(pop 1)\n(declare-const y Int)\n(assert true)\n(get-value (y))",
        " 1:1 declare x 0 2:1 push 1 3:1 declare y 1 4:1 assert 1 1 5:1 get-value y 1 x 0 6:1 pop 1 7:1 declare y 2 8:1 assert 2 2 9:1 get-value y 2",
    ),
    (
        "(declare-const x Int)\n(assert (> x 0))\n(assert (< x 5))\n(assert true)",
        " 1:1 declare x 0 2:1 assert 1 1 3:1 assert 2 3 4:1 assert 4 5",
    ),
    (
        "(declare-const x Int)\n(reset)\n(declare-const x Int)",
        " 1:1 declare x 0 2:1 reset 3:1 declare x 1",
    ),
    (
        "(push 9223372036854775807)\n(push 9223372036854775807)\n(declare-const x Int)\n(pop 9223372036854775807)\n(get-value (x))",
        " 1:1 push 9223372036854775807 2:1 push 9223372036854775807 3:1 declare x 0 4:1 pop 9223372036854775807 Unknown 5:13",
    ),
    (
        "(define-fun f ((a Int) (b Int)) Int (+ (* 2 a) b 7))\n(define-fun c () Int 5)\n(define-fun t () Bool true)",
        " 1:1 define f 0 1 Int 2*v0 1*v1 7 2:1 define c Int 5 3:1 define t Bool 1",
    ),
    (
        "(define-fun p ((a Int)) Bool (> a 0))\n(define-fun q ((a Int)) Bool true)\n(set-equal p q)\n(set-subset q p)\n(set-empty p)\n(set-finite p)\n(set-states p)\n(set-member p (- 3))\n(set-member p 4)\n(set-list p 1000)",
        " 1:1 define p 0 Bool 1 2:1 define q 1 Bool 2 3:1 set-equal [ 0 | 1 ] [ 1 | 2 ] 4:1 set-subset [ 1 | 2 ] [ 0 | 1 ] 5:1 set-empty [ 0 | 1 ] 6:1 set-finite [ 0 | 1 ] 7:1 set-states [ 0 | 1 ] 8:1 set-member [ 0 | 1 ] -3 9:1 set-member [ 0 | 1 ] 4 10:1 set-list [ 0 | 1 ] 1000",
    ),
    (
        "(define-fun t () Bool false)\n(set-member t)",
        " 1:1 define t Bool 1 2:1 set-member [ | 1 ]",
    ),
];

#[test]
fn commands_of_each_kind(rt: HostRuntime) -> Result<(), Fail> {
    read_all(&rt, rt.alloc(), &COMMANDS_OF_EACH_KIND)
}

/// Texts, each with its commands.
const COMMANDS_OF_OTHER_TEXTS: [(&str, &str); 22] = [
    ("", ""),
    (" ; (check-sat)", ""),
    ("(|check-sat|)", " 1:1 check-sat"),
    (" (check-sat) ;\n\u{9}(exit)", " 1:2 check-sat 2:2 exit"),
    ("(set-logic |LIA|)", " 1:1 set-logic"),
    (
        "(set-info :smt-lib-version 2.6)(set-info :a (b 01x))",
        " 1:1 set-info Syntax 1:48",
    ),
    (
        "(set-info :a (b \"c\" (:d)))\n(set-info :a 9223372036854775808)\n(set-info :a #b1)\n(set-info :print-success true)",
        " 1:1 set-info 2:1 set-info 3:1 set-info 4:1 set-info",
    ),
    (
        "(set-option :print-success |true|)\n(set-option :print-success \"true\")\n(set-option :print-success (true))\n(set-option :print-success True)",
        " 1:1 set-option true 2:1 set-option 3:1 set-option 4:1 set-option",
    ),
    (
        "(set-option :print-successes true)\n(set-option :a 9223372036854775808)\n(set-option :print-success false)",
        " 1:1 set-option 2:1 set-option 3:1 set-option false",
    ),
    (
        "(declare-const x |Int|)\n(declare-fun || () Int)\n(declare-const |x y| Int)\n(declare-const X Int)",
        " 1:1 declare x 0 2:1 declare  1 3:1 declare x y 2 4:1 declare X 3",
    ),
    (
        "(declare-const LIA Int)\n(declare-const assert Int)\n(declare-const .1 Int)\n(declare-const -1 Int)\n(declare-const Real Int)",
        " 1:1 declare LIA 0 2:1 declare assert 1 3:1 declare .1 2 4:1 declare -1 3 5:1 declare Real 4",
    ),
    (
        "(push 1)\n(define-fun c () Int 1)\n(pop 1)\n(define-fun c () Int 2)",
        " 1:1 push 1 2:1 define c Int 1 3:1 pop 1 4:1 define c Int 2",
    ),
    (
        "(push 2)\n(declare-const x Int)\n(pop 1)\n(declare-const x Int)\n(pop 1)\n(declare-const x Int)",
        " 1:1 push 2 2:1 declare x 0 3:1 pop 1 4:1 declare x 1 5:1 pop 1 6:1 declare x 2",
    ),
    (
        "(push 0)\n(declare-const x Int)\n(pop 0)\n(get-value (x x))",
        " 1:1 push 0 2:1 declare x 0 3:1 pop 0 4:1 get-value x 0 x 0",
    ),
    (
        "(assert true)\n(reset)\n(assert true)\n(push)\n(assert true)\n(pop)\n(assert true)",
        " 1:1 assert 1 1 2:1 reset 3:1 assert 2 2 4:1 push 1 5:1 assert 3 4 6:1 pop 1 7:1 assert 5 6",
    ),
    (
        "(push)\n(push)\n(declare-const x Int)\n(reset)\n(declare-const x Int)\n(get-value (|x|))",
        " 1:1 push 1 2:1 push 1 3:1 declare x 0 4:1 reset 5:1 declare x 1 6:1 get-value x 1",
    ),
    (
        "(assert (exists ((k Int)) (= k 0)))\n(declare-const x Int)\n(define-fun f ((a Int) (x Int)) Int (- x a))\n(declare-const a Int)",
        " 1:1 assert 2 2 2:1 declare x 1 3:1 define f 2 3 Int -1*v2 1*v3 0 4:1 declare a 4",
    ),
    (
        "(define-fun t () Bool false)\n(assert t)\n(assert (! t :a))\n(assert (let ((u t)) u))",
        " 1:1 define t Bool 1 2:1 assert 1 1 3:1 assert 1 2 4:1 assert 1 3",
    ),
    (
        "(define-fun f ((a Int) (b Int)) Int 7)\n(define-fun g ((b Int)) Int (f b b))\n(define-fun h () Int (g 3))",
        " 1:1 define f 0 1 Int 7 2:1 define g 2 Int 7 3:1 define h Int 7",
    ),
    (
        "(define-fun f ((a Int)) Int (+ (* 3 a) 1))\n(declare-const x Int)\n(define-fun g () Int (f (- (f x) x)))",
        " 1:1 define f 0 Int 3*v0 1 2:1 declare x 1 3:1 define g Int 6*v1 4",
    ),
    (
        "(echo \"\")\n(echo \"a\n ; (\")\n(echo \"|\")",
        " 1:1 echo \"\" 2:1 echo \"a\n ; (\" 4:1 echo \"|\"",
    ),
    (
        "(set-logic LIA)(reset)(set-logic ALL)(exit)(check-sat)",
        " 1:1 set-logic 1:16 reset 1:23 set-logic 1:38 exit 1:44 check-sat",
    ),
];

#[test]
fn commands_of_other_texts(rt: HostRuntime) -> Result<(), Fail> {
    read_all(&rt, rt.alloc(), &COMMANDS_OF_OTHER_TEXTS)
}

/// Texts, each with its commands.
const COMMANDS_OF_SETS: [(&str, &str); 6] = [
    (
        "(define-fun q ((a Int) (b Int) (c Int) (d Int) (e Int) (f Int) (g Int) (h Int)) Bool (= a h))\n(set-finite q)",
        " 1:1 define q 0 1 2 3 4 5 6 7 Bool 1 2:1 set-finite [ 0 1 2 3 4 5 6 7 | 1 ]",
    ),
    (
        "(define-fun q ((a Int)) Bool (exists ((k Int)) (= a (* 2 k))))\n(set-empty q)\n(set-equal q q)",
        " 1:1 define q 0 Bool 2 2:1 set-empty [ 0 | 2 ] 3:1 set-equal [ 0 | 2 ] [ 0 | 2 ]",
    ),
    (
        "(define-fun t () Bool true)\n(define-fun u () Bool t)\n(set-equal t u)\n(set-subset |u| t)\n(set-states t)\n(set-list t 0)",
        " 1:1 define t Bool 1 2:1 define u Bool 1 3:1 set-equal [ | 1 ] [ | 1 ] 4:1 set-subset [ | 1 ] [ | 1 ] 5:1 set-states [ | 1 ] 6:1 set-list [ | 1 ] 0",
    ),
    (
        "(define-fun q ((a Int) (b Int)) Bool (< a b))\n(set-member q 0 9223372036854775807)\n(set-member q (- 9223372036854775807) (- 0))\n(set-member q (|-| 5) 05x)",
        " 1:1 define q 0 1 Bool 1 2:1 set-member [ 0 1 | 1 ] 0 9223372036854775807 3:1 set-member [ 0 1 | 1 ] -9223372036854775807 0 Syntax 4:23",
    ),
    (
        "(define-fun q ((a Int) (b Int)) Bool (< a b))\n(set-member q (|-| 5) 6)\n(set-list q 7)",
        " 1:1 define q 0 1 Bool 1 2:1 set-member [ 0 1 | 1 ] -5 6 3:1 set-list [ 0 1 | 1 ] 7",
    ),
    (
        "(declare-const x Int)\n(define-fun q ((x Int)) Bool (= x 1))\n(set-empty q)",
        " 1:1 declare x 0 2:1 define q 1 Bool 1 3:1 set-empty [ 1 | 1 ]",
    ),
];

#[test]
fn commands_of_sets(rt: HostRuntime) -> Result<(), Fail> {
    read_all(&rt, rt.alloc(), &COMMANDS_OF_SETS)
}
