// Lists of words, valid and not, in several orders.
use crate::words::options;
use crate::{Mode, Options, WordsFault};
use std::alloc::{AllocError, Global};
use std::process::Abort;
use std::test::Fail;

/// The words of a line.
fn words_of(alloc: Global, line: &str) -> Result<Vec<String>, AllocError> {
    let mut words = Vec::new(alloc);
    for word in line.split_whitespace() {
        words.push(String::from_str(alloc, word)?)?;
    }
    Ok(words)
}

/// The words have this answer, read from the first to the last and from the last to the first.
fn expect(
    rt: &(impl Abort + Eprint),
    alloc: Global,
    line: &str,
    answer: Result<Options, WordsFault>,
) -> Result<(), Fail> {
    let mut words = words_of(alloc, line)?;
    assert_eq!(rt; options(alloc, words.as_slice()), answer, "{line}");
    words.reverse();
    assert_eq!(rt;
        options(alloc, words.as_slice()),
        answer,
        "{line}, from the last word"
    );
    Ok(())
}

fn solve(workers: u32, states: u32) -> Options {
    Options {
        mode: Mode::Solve,
        workers,
        states,
        seed: 0,
        size: 0,
    }
}

fn drill(workers: u32, states: u32, seed: u32, size: u32) -> Options {
    Options {
        mode: Mode::Drill,
        workers,
        states,
        seed,
        size,
    }
}

#[test]
fn words_with_options(rt: HostRuntime) -> Result<(), Fail> {
    let alloc = rt.alloc();
    for (line, answer) in [
        ("", solve(1, 16_384)),
        ("--mode=solve", solve(1, 16_384)),
        ("--workers=4", solve(4, 16_384)),
        ("--workers=1", solve(1, 16_384)),
        ("--workers=16", solve(16, 16_384)),
        ("--states=1", solve(1, 1)),
        ("--states=65536", solve(1, 65_536)),
        ("--workers=10 --states=10", solve(10, 10)),
        ("--states=8 --mode=solve --workers=2", solve(2, 8)),
        ("--mode=solve --states=8 --workers=2", solve(2, 8)),
        ("--mode=drill --seed=0 --size=1", drill(1, 16_384, 0, 1)),
        ("--seed=0 --mode=drill --size=1", drill(1, 16_384, 0, 1)),
        ("--size=1 --seed=0 --mode=drill", drill(1, 16_384, 0, 1)),
        (
            "--mode=drill --seed=2147483647 --size=4096",
            drill(1, 16_384, 2_147_483_647, 4_096),
        ),
        (
            "--mode=drill --seed=7 --size=200 --workers=16 --states=65536",
            drill(16, 65_536, 7, 200),
        ),
        (
            "--workers=3 --seed=10 --states=100 --mode=drill --size=20",
            drill(3, 100, 10, 20),
        ),
    ] {
        expect(&rt, alloc, line, Ok(answer))?;
    }
    Ok(())
}

#[test]
fn words_without_options(rt: HostRuntime) -> Result<(), Fail> {
    let alloc = rt.alloc();
    for line in [
        "--mode=drill --seed=0",
        "--mode=drill --size=1",
        "--mode=drill",
        "--seed=0 --size=1",
        "--mode=solve --seed=0 --size=1",
        "--seed=0",
        "--size=1",
        "--mode=drill --seed=2147483648 --size=1",
        "--mode=drill --seed=4294967296 --size=1",
        "--mode=drill --seed=0 --size=0",
        "--mode=drill --seed=0 --size=4097",
        "--mode=drill --seed=00 --size=1",
        "--mode=drill --seed=0 --size=01",
        "--states=8 --states=8",
        "--states=8 --states=9",
        "--mode=drill --mode=drill --seed=0 --size=1",
        "--workers=0",
        "--workers=17",
        "--workers=02",
        "--workers",
        "--workers=",
        "--workers=+2",
        "--workers=2x",
        "--workers=-2",
        "--workers==2",
        "--states=0",
        "--states=65537",
        "--states=99999999999999999999",
        "--mode=both",
        "--mode=Solve",
        "--mode=solve=drill",
        "--mode",
        "--mode solve",
        "--help",
        "--help=yes",
        "--version",
        "--",
        "-",
        "--=4",
        "--worker=4",
        "--workers4",
        "-workers=4",
        "workers=4",
        "-h",
        "help",
        "--WORKERS=4",
        "--states=8 script.smt2",
        "--workers=1 --workers=2 --workers=3 --workers=4 --workers=5 --workers=6 --workers=7",
    ] {
        expect(&rt, alloc, line, Err(WordsFault::Usage))?;
    }
    Ok(())
}

/// Words that no line has: the empty one, and one with blanks.
#[test]
fn words_with_blanks(rt: HostRuntime) -> Result<(), Fail> {
    let alloc = rt.alloc();
    for word in ["", " ", "--workers=4 ", " --workers=4", "--workers= 4"] {
        let mut words = Vec::new(alloc);
        words.push(String::from_str(alloc, word)?)?;
        assert_eq!(rt;
            options(alloc, words.as_slice()),
            Err(WordsFault::Usage),
            "{word}"
        );
    }
    Ok(())
}
