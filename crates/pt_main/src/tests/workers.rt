// Scripts that several workers answer.
use crate::Status;
use crate::tests::{NEVER, ending, expect_all};
use std::test::Fail;

#[test]
fn scripts_with_several_workers(rt: HostRuntime) -> Result<(), Fail> {
    let thousand = "(declare-const x Int)\n(assert (= x 1000))\n(check-sat)\n";
    let skipped = "(declare-const x Int)\n(assert (and false (= x 1000)))\n(check-sat)\n";
    let coins =
        "(declare-const x Int)(assert (not (exists ((a Int) (b Int)) (and (>= a 0) (>= b 0) (= x (+ (* 3 a) (* 5 b)))))))(assert (> x 4))(check-sat)(get-value (x))";
    let even =
        "(define-fun e1 ((x Int)) Bool (exists ((k Int)) (= x (* 2 k))))(define-fun e2 ((x Int)) Bool ((_ divisible 2) x))(set-equal e1 e2)(set-states e1)(set-states e2)";
    let order =
        "(set-info :status sat)\n(set-info :smt-lib-version 2.6)\n; order and parity\n(set-logic LIA)\n(set-option :produce-models true)\n(declare-const a Int)\n(declare-fun b () Int)\n(declare-const c Int)\n(assert (! (and (< a b) (< b c)) :named order))\n(assert (let ((s (+ a b)) (t (- c a))) (and (= s 10) (> t 3))))\n(assert (exists ((k Int)) (= c (* 3 k))))\n(assert (forall ((m Int)) (or (not (= (* 2 m) c)) (< m b))))\n(check-sat)\n(get-value (a b c))\n(get-model)\n(exit)\n";
    let model =
        "sat\n((a 2) (b 8) (c 12))\n(\n  (define-fun a () Int 2)\n  (define-fun b () Int 8)\n  (define-fun c () Int 12)\n)\n";
    let refused = "(error \"2:9: state bound 11 exceeded\")\n";
    let within = "(error \"2:20: state bound 11 exceeded\")\n";
    expect_all(
        &rt,
        rt.alloc(),
        &[
            ("--workers=3", coins, "sat\n((x 7))\n"),
            ("--states=12 --workers=3", thousand, "sat\n"),
            ("--workers=3 --states=11", thousand, refused),
            ("--workers=3", even, "true\n3\n3\n"),
            ("--workers=3", order, model),
            ("--workers=16", order, model),
            ("--states=11 --workers=3", skipped, within),
            ("--workers=3", skipped, "unsat\n"),
        ],
    )
}

#[test]
fn a_shard_that_is_full_for_several_workers(rt: HostRuntime) -> Result<(), Fail> {
    let script =
        b"(declare-const x Int)(assert (or (= x 5) (= x 6)))(check-sat)(get-value (x))".as_slice();
    for words in ["--workers=2", "--workers=16"] {
        let (status, written, codes) = ending(&rt, rt.alloc(), words, script, [NEVER, NEVER], 1)?;
        assert!(&rt; status == Status::StoreFull { shard: 0 } && codes == 1);
        assert_eq!(&rt; written.as_slice(), b"".as_slice());
    }
    Ok(())
}
