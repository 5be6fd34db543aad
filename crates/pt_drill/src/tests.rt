// Scripts of mode drill, against the text of one and a plain program.
ghost use Rattle.std.specs.Prelude.{◌<◌};

use crate::{drill_script, last_line, summary};
use std::alloc::{AllocError, Global};
use std::test::Fail;

#[test]
fn the_script_of_one_group(rt: HostRuntime) -> Result<(), Fail> {
    let text = drill_script(rt.alloc(), 0, 1).ok().ok_or("no memory")?;
    assert_eq!(rt;
        text.as_slice(),
        b"(declare-const p Int)
(declare-const q Int)
(define-fun g0 ((x Int) (y Int)) Bool (and (and (<= (+ (* 1 x) (* 4 y)) 4) ((_ divisible 3) (+ x (* 5 y)))) (= (- x y) 31)))
(set-states g0)
(push 1)
(assert (and (g0 p q) (>= p 0)))
(check-sat)
(pop 1)
"
            .as_slice()
    );
    Ok(())
}

/// A draw below `n`, by arithmetic that wraps.
fn draw(state: &mut u64, n: u64) -> u64
    requires { 0 < n }
{
    *state = state.wrapping_mul(1_103_515_245).wrapping_add(12_345) % 2_147_483_648;
    (*state >> 16) % n
}

/// The script, line by line.
fn plain_script(alloc: Global, seed: u64, size: u64) -> Result<String, AllocError> {
    let mut state = seed;
    let mut text = String::new(alloc);
    text.push_str("(declare-const p Int)\n(declare-const q Int)\n")?;
    for i in 0..size {
        let a = draw(&mut state, 5);
        let b = draw(&mut state, 5);
        let c = draw(&mut state, 32);
        let m = draw(&mut state, 6);
        let d = draw(&mut state, 7);
        let e = draw(&mut state, 32);
        let a = a.wrapping_add(1);
        let b = b.wrapping_add(1);
        let m = m.wrapping_add(2);
        writeln!(
            text,
            "(define-fun g{i} ((x Int) (y Int)) Bool (and (and (<= (+ (* {a} x) (* {b} y)) {c}) ((_ divisible {m}) (+ x (* {d} y)))) (= (- x y) {e})))"
        )?;
        writeln!(text, "(set-states g{i})")?;
        text.push_str("(push 1)\n")?;
        writeln!(text, "(assert (and (g{i} p q) (>= p 0)))")?;
        text.push_str("(check-sat)\n(pop 1)\n")?;
    }
    Ok(text)
}

#[test]
fn scripts_of_many_groups(rt: HostRuntime) -> Result<(), Fail> {
    let alloc = rt.alloc();
    for (seed, size) in [
        (0, 2),
        (1, 1),
        (7, 200),
        (65_535, 11),
        (65_536, 12),
        (2_147_483_647, 100),
        (3, 4_096),
    ] {
        let text = drill_script(alloc, seed, size).ok().ok_or("no memory")?;
        let plain = plain_script(alloc, u64::from(seed), u64::from(size))?;
        assert!(rt; text.as_slice() == plain.as_bytes(), "{seed} {size}");
    }
    Ok(())
}

#[test]
fn the_line_of_an_output(rt: HostRuntime) -> Result<(), Fail> {
    let alloc = rt.alloc();
    let output = b"3\nsat\n20\nunsat\n1\nsat\nsat 7\n";
    let line = summary(alloc, 5, 3, output.as_slice())
        .ok()
        .ok_or("no memory")?;
    assert_eq!(rt;
        line.as_slice(),
        b"drill 5 3: 2 sat, 1 unsat, 24 states\n".as_slice()
    );
    let refused = b"sat\n(error \"1:1: pop\")\n";
    assert_eq!(rt;
        last_line(refused.as_slice()),
        b"(error \"1:1: pop\")\n".as_slice()
    );
    assert_eq!(rt; last_line(b"sat".as_slice()), b"sat".as_slice());
    Ok(())
}
