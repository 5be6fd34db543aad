// Runs in mode drill, with the counts of a plain program, and words that give no options.
use crate::Status;
use crate::tests::{NEVER, ending};
use std::test::Fail;

#[test]
fn drills(rt: HostRuntime) -> Result<(), Fail> {
    let alloc = rt.alloc();
    for (words, output) in [
        (
            "--mode=drill --seed=0 --size=1",
            b"drill 0 1: 0 sat, 1 unsat, 1 states\n".as_slice(),
        ),
        (
            "--size=5 --mode=drill --seed=0",
            b"drill 0 5: 3 sat, 2 unsat, 67 states\n".as_slice(),
        ),
        (
            "--mode=drill --seed=1 --size=3 --states=16384",
            b"drill 1 3: 2 sat, 1 unsat, 65 states\n".as_slice(),
        ),
    ] {
        // No call of the source is made: its first one fails.
        let (status, written, _codes) = ending(&rt, alloc, words, b"(exit)", [0, NEVER], 9_999)?;
        assert_eq!(&rt; status, Status::Done, "{words}");
        assert_eq!(&rt; written.as_slice(), output, "{words}");
    }
    Ok(())
}

/// Seed 7 and size 200 give the same bytes for each number of workers.
#[test]
fn drills_with_several_workers(rt: HostRuntime) -> Result<(), Fail> {
    let alloc = rt.alloc();
    for words in [
        "--mode=drill --seed=7 --size=200 --workers=1",
        "--mode=drill --seed=7 --size=200 --workers=2",
        "--workers=16 --mode=drill --seed=7 --size=200",
    ] {
        let (status, written, _codes) = ending(&rt, alloc, words, b"", [0, NEVER], 99_999)?;
        assert_eq!(&rt; status, Status::Done, "{words}");
        assert_eq!(&rt;
            written.as_slice(),
            b"drill 7 200: 163 sat, 37 unsat, 3065 states\n".as_slice(),
            "{words}"
        );
    }
    Ok(())
}

#[test]
fn drills_that_end_otherwise(rt: HostRuntime) -> Result<(), Fail> {
    let alloc = rt.alloc();
    for (words, failing, limit, status, output) in [
        (
            "--mode=drill --seed=0 --size=1 --states=1",
            NEVER,
            9_999,
            Status::Refused,
            b"(error \"3:49: state bound 1 exceeded\")\n".as_slice(),
        ),
        (
            "--mode=drill --seed=0 --size=1",
            1,
            9_999,
            Status::WriteFault,
            b"dri".as_slice(),
        ),
        (
            "--mode=drill --seed=0 --size=1",
            NEVER,
            1,
            Status::StoreFull { shard: 0 },
            b"".as_slice(),
        ),
    ] {
        let (ended, written, _codes) = ending(&rt, alloc, words, b"", [0, failing], limit)?;
        assert_eq!(&rt; ended, status, "{words}");
        assert_eq!(&rt; written.as_slice(), output, "{words}");
    }
    Ok(())
}

/// Nothing is read or written: the first call of the source fails, and so does that of the sink.
#[test]
fn words_without_options(rt: HostRuntime) -> Result<(), Fail> {
    let alloc = rt.alloc();
    for words in [
        "--mode=drill --seed=0",
        "--seed=0 --size=1",
        "--mode=drill --seed=2147483648 --size=1",
        "--mode=drill --seed=0 --size=0",
        "--states=8 --states=8",
        "--help",
    ] {
        let (status, written, codes) = ending(&rt, alloc, words, b"(check-sat)", [0, 0], 9)?;
        assert_eq!(&rt; status, Status::Usage, "{words}");
        assert_eq!(&rt; (written.as_slice(), codes), (b"".as_slice(), 0), "{words}");
    }
    Ok(())
}
