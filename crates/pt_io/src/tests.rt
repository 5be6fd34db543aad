use crate::{
    Failed, MemSink, MemSource, ReadFault, RealSink, RealSource, Sink, Source, SureSink,
    SureSource, WriteFault, read_all, write_all,
};
use std::test::Fail;

#[test]
fn sure_streams_move_all(rt: HostRuntime) -> Result<(), Fail> {
    let alloc = rt.alloc();
    for limit in [3, 2] {
        let bytes = b"abc".to_vec(alloc)?;
        let mut source = SureSource::new(bytes);
        match read_all(alloc, &mut source, limit) {
            Ok(all) => assert_eq!(rt; (limit, all.as_slice()), (3, b"abc".as_slice())),
            Err(fault) => assert_eq!(rt; (limit, fault), (2, ReadFault::TooLong { limit: 2 })),
        }
    }
    let mut sink = SureSink::new(alloc, 8)?;
    assert_eq!(rt; write_all(&mut sink, b"abc"), Ok(()));
    assert_eq!(rt; sink.bytes(), b"abc".as_slice());
    assert_eq!(rt; write_all(&mut sink, b"defghij"), Ok(()));
    assert_eq!(rt; sink.bytes(), b"abcdefgh".as_slice());
    Ok(())
}

#[test]
fn memory_streams_fail_where_they_are_told_to(rt: HostRuntime) -> Result<(), Fail> {
    let alloc = rt.alloc();
    for (failing, limit, want) in [
        (9, 5, Ok(5)),
        (0, 5, Err(ReadFault::Failed)),
        (2, 5, Err(ReadFault::Failed)),
        (9, 4, Err(ReadFault::TooLong { limit: 4 })),
        (3, 4, Err(ReadFault::TooLong { limit: 4 })),
    ] {
        let bytes = b"abcde".to_vec(alloc)?;
        let mut source = MemSource::new(bytes, 2, vec![in alloc; failing]?);
        let read = read_all(alloc, &mut source, limit).map(|all| all.len());
        assert_eq!(rt; read, want, "call {failing} fails, limit {limit}");
    }
    for (failing, want, written) in [
        (9, Ok(()), b"abcde".as_slice()),
        (0, Err(WriteFault::Failed), b"".as_slice()),
        (1, Err(WriteFault::Failed), b"abc".as_slice()),
    ] {
        let mut sink = MemSink::new(alloc, 3, vec![in alloc; failing]?)?;
        assert_eq!(rt;
            write_all(&mut sink, b"abcde"),
            want,
            "call {failing} fails"
        );
        assert_eq!(rt; sink.bytes(), written, "call {failing} fails");
    }
    Ok(())
}

#[test]
fn a_memory_sink_fails_past_its_room(rt: HostRuntime) -> Result<(), Fail> {
    let alloc = rt.alloc();
    let half = vec![in alloc; 7; 4_194_304]?;
    let mut sink = MemSink::new(alloc, usize::MAX, Vec::new(alloc))?;
    assert_eq!(rt; write_all(&mut sink, half.as_slice()), Ok(()));
    assert_eq!(rt; write_all(&mut sink, half.as_slice()), Ok(()));
    assert_eq!(rt; sink.write(b"x"), Err(Failed));
    assert_eq!(rt; sink.write(b""), Ok(0));
    assert_eq!(rt; sink.bytes().len(), 8_388_608);
    Ok(())
}

#[test]
fn a_real_source_reads(rt: HostRuntime) -> Result<(), Fail> {
    let text = b"(check-sat)";
    let mut source = RealSource::new(text.as_slice());
    let all = read_all(rt.alloc(), &mut source, 20).ok().ok_or("a fault")?;
    assert_eq!(rt; all.as_slice(), text.as_slice());
    Ok(())
}

#[test]
fn a_real_sink_fails_where_nothing_is_taken(rt: HostRuntime) {
    let mut room = [0u8; 3];
    let mut sink = RealSink::new(room.as_mut_slice());
    assert_eq!(rt; write_all(&mut sink, b"ab"), Ok(()));
    assert_eq!(rt; sink.faults, 0);
    assert_eq!(rt; write_all(&mut sink, b"cd"), Err(WriteFault::Failed));
    assert_eq!(rt; sink.write(b""), Ok(0));
    assert_eq!(rt; sink.faults, 1);
}
