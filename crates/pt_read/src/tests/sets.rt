//! Commands about the sets of definitions.
use super::outline::{DEFINITIONS, refuse_all, refuse_all_behind};
use std::test::Fail;

/// Texts, each with the refusal that ends it.
const REFUSALS_OF_SETS: [(&str, &str); 38] = [
    ("(set-empty p)", " Unknown 1:12"),
    ("(set-empty and)", " Unknown 1:12"),
    ("(declare-const x Int)\n(set-empty x)", " Sort 2:12"),
    (
        "(declare-const x Int)\n(define-fun q ((a Int)) Bool (= a x))\n(set-empty q)",
        " Unsupported 3:12",
    ),
    (
        "(define-fun q ((a0 Int) (a1 Int) (a2 Int) (a3 Int) (a4 Int) (a5 Int) (a6 Int) (a7 Int) (a8 Int) (a9 Int) (a10 Int)) Bool true)\n(set-empty q)",
        " Tracks 2:12",
    ),
    ("(set-empty)", " Syntax 1:1"),
    ("(set-empty (p))", " Syntax 1:12"),
    ("(set-empty p q)", " Syntax 1:14"),
    ("(set-finite)", " Syntax 1:1"),
    ("(set-finite 3)", " Syntax 1:13"),
    ("(set-finite p 1)", " Syntax 1:15"),
    ("(set-states)", " Syntax 1:1"),
    ("(set-states \"p\")", " Syntax 1:13"),
    ("(set-states p ())", " Syntax 1:15"),
    ("(set-equal)", " Syntax 1:1"),
    ("(set-equal p)", " Syntax 1:1"),
    ("(set-equal 3 q)", " Syntax 1:12"),
    ("(set-equal p (q))", " Syntax 1:14"),
    ("(set-equal p q r)", " Syntax 1:16"),
    ("(set-subset p)", " Syntax 1:1"),
    ("(set-subset :p q)", " Syntax 1:13"),
    ("(set-subset p 1)", " Syntax 1:15"),
    ("(set-subset p q 1)", " Syntax 1:17"),
    ("(set-member)", " Syntax 1:1"),
    ("(set-member 3 1)", " Syntax 1:13"),
    ("(set-member p 1 (- 3 4))", " Syntax 1:17"),
    ("(set-member p (+ 3))", " Syntax 1:15"),
    ("(set-member p -3)", " Syntax 1:15"),
    ("(set-member p 1 (-) x)", " Syntax 1:17"),
    ("(set-member p (- x))", " Syntax 1:15"),
    ("(set-member p 1.5)", " Syntax 1:15"),
    ("(set-member p (- (- 3)))", " Syntax 1:15"),
    ("(set-member p \"1\")", " Syntax 1:15"),
    ("(set-list)", " Syntax 1:1"),
    ("(set-list 3 3)", " Syntax 1:11"),
    ("(set-list p x)", " Syntax 1:13"),
    ("(set-list p (- 1))", " Syntax 1:13"),
    ("(set-list p 9223372036854775808 2)", " Syntax 1:33"),
];

#[test]
fn refusals_of_sets(rt: HostRuntime) -> Result<(), Fail> {
    refuse_all(&rt, rt.alloc(), &REFUSALS_OF_SETS)
}

/// Texts, each with the refusal that ends it.
const RULES_OF_SETS: [(&str, &str); 21] = [
    ("(set-finite p)", " Unknown 1:13"),
    ("(set-states p)", " Unknown 1:13"),
    ("(set-equal p q)", " Unknown 1:12"),
    ("(set-subset p q)", " Unknown 1:13"),
    ("(set-member p 9223372036854775808)", " Unknown 1:13"),
    ("(set-list p 1001)", " Unknown 1:11"),
    ("(declare-const x Int)\n(set-finite x)", " Sort 2:13"),
    ("(declare-const x Int)\n(set-states x)", " Sort 2:13"),
    ("(declare-const x Int)\n(set-equal x y)", " Sort 2:12"),
    ("(declare-const x Int)\n(set-member x 1 2)", " Sort 2:13"),
    (
        "(define-fun c () Int 1)\n(set-list c 9223372036854775808)",
        " Sort 2:11",
    ),
    ("(define-fun c () Int 1)\n(set-subset c c)", " Sort 2:13"),
    (
        "(declare-const x Int)\n(define-fun t () Bool (= x 1))\n(set-states t)",
        " Unsupported 3:13",
    ),
    (
        "(declare-const x Int)\n(define-fun t () Bool (= x 1))\n(set-member t 1)",
        " Unsupported 3:13",
    ),
    (
        "(declare-const x Int)\n(define-fun t () Bool (= x 1))\n(set-equal t u)",
        " Unsupported 3:12",
    ),
    (
        "(declare-const x Int)\n(define-fun t () Bool (= x 1))\n(set-list t 1001)",
        " Unsupported 3:11",
    ),
    (
        "(define-fun q ((a Int) (b Int) (c Int) (d Int) (e Int) (f Int) (g Int) (h Int) (i Int) (j Int) (k Int)) Int i)\n(set-finite q)",
        " Sort 2:13",
    ),
    (
        "(declare-const x Int)\n(define-fun q ((a Int) (b Int) (c Int) (d Int) (e Int) (f Int) (g Int) (h Int) (i Int) (j Int) (k Int)) Bool (= x i))\n(set-finite q)",
        " Unsupported 3:13",
    ),
    (
        "(define-fun q ((a Int) (b Int) (c Int) (d Int) (e Int) (f Int) (g Int) (h Int) (i Int) (j Int) (k Int)) Bool true)\n(set-member q 1)",
        " Tracks 2:13",
    ),
    (
        "(define-fun q ((a Int) (b Int) (c Int) (d Int) (e Int) (f Int) (g Int) (h Int) (i Int) (j Int) (k Int)) Bool true)\n(set-equal q r)",
        " Tracks 2:12",
    ),
    (
        "(define-fun q ((a Int) (b Int) (c Int) (d Int) (e Int) (f Int) (g Int) (h Int) (i Int) (j Int) (k Int)) Bool true)\n(define-fun t () Bool true)\n(set-subset t q)",
        " Tracks 3:15",
    ),
];

#[test]
fn rules_of_sets(rt: HostRuntime) -> Result<(), Fail> {
    refuse_all(&rt, rt.alloc(), &RULES_OF_SETS)
}

/// Texts, each with the refusal that ends it.
const RULES_OF_SETS_OF_DEFINITIONS: [(&str, &str); 24] = [
    ("(set-empty f)", " Sort 4:12"),
    (
        "(define-fun q ((a Int) (b Int)) Bool true)\n(set-equal p q)",
        " Sort 5:14",
    ),
    ("(set-subset p q)", " Unknown 4:15"),
    ("(set-member p)", " Sort 4:1"),
    ("(set-member p 1 2)", " Sort 4:1"),
    ("(set-member p x)", " Syntax 4:15"),
    (
        "(set-member p (- 9223372036854775808))",
        " Coefficient 4:18",
    ),
    ("(set-list p 1001)", " Unsupported 4:13"),
    ("(set-list p 9223372036854775808)", " Coefficient 4:13"),
    ("(set-list p)", " Syntax 4:1"),
    ("(set-equal p a)", " Unknown 4:14"),
    ("(set-equal f y)", " Sort 4:12"),
    ("(set-equal p f)", " Sort 4:14"),
    ("(set-subset p c)", " Sort 4:15"),
    (
        "(define-fun t () Bool true)\n(set-subset p t)",
        " Sort 5:15",
    ),
    ("(set-member p 1 9223372036854775808)", " Sort 4:1"),
    ("(set-member p 9223372036854775808)", " Coefficient 4:15"),
    (
        "(set-member p (- 18446744073709551616))",
        " Coefficient 4:18",
    ),
    (
        "(define-fun q ((a Int) (b Int)) Bool true)\n(set-member q (- 9223372036854775808) 9223372036854775808)",
        " Coefficient 5:18",
    ),
    ("(define-fun t () Bool true)\n(set-member t 1)", " Sort 5:1"),
    ("(set-list p 9223372036854775807)", " Unsupported 4:13"),
    ("(set-list f 1001)", " Sort 4:11"),
    (
        "(push 1)\n(define-fun q ((a Int)) Bool true)\n(pop 1)\n(set-empty q)",
        " Unknown 7:12",
    ),
    ("(reset)\n(set-empty p)", " Unknown 5:12"),
];

#[test]
fn rules_of_sets_of_definitions(rt: HostRuntime) -> Result<(), Fail> {
    refuse_all_behind(&rt, rt.alloc(), DEFINITIONS, &RULES_OF_SETS_OF_DEFINITIONS)
}
