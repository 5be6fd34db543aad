// Streams that fail at each call, scripts that end after each byte, and stores of each small size.
use crate::{Status, run};
use pt_eval::Open;
use pt_io::{MemSink, MemSource};
use pt_store::{OneShard, SharedStore};
use std::alloc::Global;
use std::test::Fail;
use std::thread::Threads;

const NEVER: u64 = 100_000_000;

// How a run with one byte a call ends, whose source and sink each fail at one call and whose store has one shard, and what it
// has written.
fn ends<R: Threads + Sync>(
    rt: &R,
    alloc: Global,
    script: &[u8],
    failing: [u64; 2],
    limit: u8,
) -> Result<(Status, Vec<u8>), Fail> {
    let [read, write] = failing;
    let mut source = MemSource::new(script.to_vec(alloc)?, 1, vec![in alloc; read]?);
    let mut sink = MemSink::new(alloc, 1, vec![in alloc; write]?)?;
    let (store, mut pass) = SharedStore::new(alloc, 1, u32::from(limit.max(1)), OneShard)?;
    let status = run(
        rt,
        alloc,
        &[],
        &mut source,
        &mut sink,
        &Open,
        &store,
        &mut pass,
    );
    Ok((status, sink.bytes().to_vec(alloc)?))
}

#[test]
fn streams_that_fail_at_each_call(rt: HostRuntime) -> Result<(), Fail> {
    let alloc = rt.alloc();
    for call in [0, 11] {
        let (status, written) = ends(&rt, alloc, b"(check-sat)", [call, NEVER], 9)?;
        assert!(rt;
            status == Status::ReadFault && written.is_empty(),
            "call {call}"
        );
    }
    let five = b"(declare-const x Int)(assert (= x 5))(check-sat)(get-value (x))";
    let output = b"sat\n((x 5))\n";
    for call in 0..12u64 {
        let (status, written) = ends(&rt, alloc, five, [NEVER, call], 100)?;
        assert_eq!(rt; status, Status::WriteFault, "call {call}");
        assert!(rt;
            Some(written.as_slice()) == output.get(..call as usize),
            "call {call}"
        );
    }
    let (status, written) = ends(&rt, alloc, five, [NEVER, 12], 100)?;
    assert!(rt; status == Status::Done && written.as_slice() == output.as_slice());
    Ok(())
}

#[test]
fn scripts_that_end_after_each_byte(rt: HostRuntime) -> Result<(), Fail> {
    let alloc = rt.alloc();
    let script =
        b"(set-info :status sat)\n(set-info :smt-lib-version 2.6)\n; order and parity\n(set-logic LIA)\n(set-option :produce-models true)\n(declare-const a Int)\n(declare-fun b () Int)\n(declare-const c Int)\n(assert (! (and (< a b) (< b c)) :named order))\n(assert (let ((s (+ a b)) (t (- c a))) (and (= s 10) (> t 3))))\n(assert (exists ((k Int)) (= c (* 3 k))))\n(assert (forall ((m Int)) (or (not (= (* 2 m) c)) (< m b))))\n(check-sat)\n(get-value (a b c))\n(get-model)\n(exit)\n".as_slice();
    for size in 0..script.len() {
        let front = script.get(..size).ok_or("size")?;
        let (status, written) = ends(&rt, alloc, front, [NEVER, NEVER], 255)?;
        assert!(rt;
            status == Status::Done || status == Status::Refused,
            "up to {size}"
        );
        assert!(rt;
            written.is_empty() || written.last() == Some(&b'\n'),
            "up to {size}"
        );
    }
    let open = vec![in alloc; b'('; 257]?;
    let (status, written) = ends(&rt, alloc, &open, [NEVER, NEVER], 9)?;
    assert_eq!(rt; status, Status::Refused);
    assert_eq!(rt;
        written.as_slice(),
        b"(error \"1:257: nesting over 256\")\n".as_slice()
    );
    Ok(())
}

#[test]
fn stores_of_each_small_size(rt: HostRuntime) -> Result<(), Fail> {
    let alloc = rt.alloc();
    let five = b"(declare-const x Int)(assert (= x 5))(check-sat)(get-value (x))";
    let output = b"sat\n((x 5))\n".as_slice();
    for limit in 1..21u8 {
        let (status, written) = ends(&rt, alloc, five, [NEVER, NEVER], limit)?;
        if status == Status::Done {
            assert!(rt; limit >= 5 && written.as_slice() == output, "limit {limit}");
        } else {
            assert_eq!(rt; status, Status::StoreFull { shard: 0 }, "limit {limit}");
            assert!(rt; limit < 20 && output.starts_with(&written), "limit {limit}");
            assert!(rt; limit >= 5 || written.is_empty(), "limit {limit}");
        }
    }
    Ok(())
}
