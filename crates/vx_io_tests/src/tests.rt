use std::alloc::{AllocError, Global};
use std::test::Fail;
use vx_io::{
    MemSink, MemSource, ReadAllFault, Sink, SinkFault, StdSink, StdSource, SureSink, SureSource,
    read_all, write_all,
};

const TEXT: &[u8] = b"abc";

// A source of the text, of whose reads this one fails.
fn source_failing_at(alloc: Global, read: u64) -> Result<MemSource, AllocError> {
    Ok(MemSource::new(TEXT.to_vec(alloc)?, vec![in alloc; read]?))
}

// Why not all of the text is read, if it is not.
fn fault(alloc: Global, source: &mut MemSource, limit: usize) -> Option<ReadAllFault> {
    match read_all(alloc, source, limit) {
        Ok(_) => None,
        Err(fault) => Some(fault),
    }
}

#[test]
fn reads_all_or_says_why(rt: HostRuntime) -> Result<(), Fail> {
    let alloc = rt.alloc();
    let read = fault(alloc, &mut source_failing_at(alloc, 9)?, 3);
    let too_long = fault(alloc, &mut source_failing_at(alloc, 9)?, 2);
    let at_first = fault(alloc, &mut source_failing_at(alloc, 0)?, 3);
    let on_the_way = fault(alloc, &mut source_failing_at(alloc, 1)?, 3);
    assert!(rt;
        read.is_none()
            && too_long == Some(ReadAllFault::TooLong(3))
            && at_first == Some(ReadAllFault::Failed)
            && on_the_way == Some(ReadAllFault::Failed)
    );
    Ok(())
}

#[test]
fn reads_what_is_there(rt: HostRuntime) -> Result<(), Fail> {
    let alloc = rt.alloc();
    let mut sure = SureSource::new(TEXT.to_vec(alloc)?);
    let bytes = read_all(alloc, &mut sure, 3)?;
    let mut standard = StdSource::new(TEXT);
    let standard_bytes = read_all(alloc, &mut standard, 3)?;
    assert!(rt; bytes.as_slice() == TEXT && standard_bytes.as_slice() == TEXT);
    Ok(())
}

// Writes three texts, and says whether the second failed, and the others did not.
fn writes_all_but_one(sink: &mut MemSink) -> bool {
    write_all(sink, b"ab") == Ok(())
        && write_all(sink, b"cd") == Err(SinkFault::Failed)
        && write_all(sink, b"ef") == Ok(())
}

#[test]
fn writes_all_or_says_why(rt: HostRuntime) -> Result<(), Fail> {
    let alloc = rt.alloc();
    let mut sink = MemSink::new(alloc, vec![in alloc; 1]?);
    let mut sure = SureSink::new(alloc);
    let written = writes_all_but_one(&mut sink) && write_all(&mut sure, TEXT) == Ok(());
    assert!(rt; written && sink.bytes() == b"abef".as_slice() && sure.bytes() == TEXT);
    Ok(())
}

// A writer with room for two bytes takes a part, and then nothing, which is a fault.
#[test]
fn a_full_writer_is_a_fault(rt: HostRuntime) {
    let mut room = [0u8; 2];
    let mut sink = StdSink::new(room.as_mut_slice());
    let met = sink.write(TEXT) == Ok(2) && write_all(&mut sink, b"c") == Err(SinkFault::Failed);
    assert!(rt; met);
}
