//! Sources and sinks of sim_io, as no clause says it: that the calls answer with memory at hand, and that the standard
//! streams work.

use sim_io::{
    CleanSource, Failed, MemSink, MemSource, ReadEnd, Sink, Source, StdSink, StdSource, read_all,
    write_all,
};
use std::alloc::{AllocError, Global};
use std::test::Fail;

/// Whether a source gives these bytes, of which there may be at most `limit`.
fn gives<S: Source>(alloc: Global, source: &mut S, limit: usize, bytes: &[u8]) -> bool {
    match read_all(alloc, source, limit) {
        Ok(found) => found.as_slice() == bytes,
        Err(_) => false,
    }
}

/// Whether a source is not read to its end for this cause.
fn fails<S: Source>(alloc: Global, source: &mut S, limit: usize, cause: ReadEnd) -> bool {
    match read_all(alloc, source, limit) {
        Ok(_) => false,
        Err(found) => found == cause,
    }
}

/// Seven bytes, of which each call gives three at most. The second call and the fourth fail.
fn failing_source(alloc: Global) -> Result<MemSource, AllocError> {
    let bytes = b"abcdefg".to_vec(alloc)?;
    let fail_at = [2, 4].to_vec(alloc)?;
    Ok(MemSource::new(bytes, 3, fail_at))
}

/// A sink that takes five bytes in all, two of them a call at most. The second call fails.
fn failing_sink(alloc: Global) -> Result<MemSink, AllocError> {
    let fail_at = [2].to_vec(alloc)?;
    MemSink::new(alloc, 5, 2, fail_at)
}

#[test]
fn a_source_goes_on_behind_a_failed_call(rt: HostRuntime) -> Result<(), Fail> {
    let alloc = rt.alloc();
    let mut source = failing_source(alloc)?;
    assert!(rt; fails(alloc, &mut source, 7, ReadEnd::Failed));
    assert!(rt; fails(alloc, &mut source, 3, ReadEnd::Failed));
    assert!(rt; gives(alloc, &mut source, 1, b"g"));
    Ok(())
}

#[test]
fn a_source_goes_on_behind_the_limit(rt: HostRuntime) -> Result<(), Fail> {
    let alloc = rt.alloc();
    let mut source = CleanSource::new(b"abcdefg".to_vec(alloc)?);
    assert!(rt; fails(alloc, &mut source, 5, ReadEnd::Long));
    assert!(rt; gives(alloc, &mut source, 1, b"g"));
    Ok(())
}

#[test]
fn a_sink_fails_at_its_call(rt: HostRuntime) -> Result<(), Fail> {
    let mut sink = failing_sink(rt.alloc())?;
    assert!(rt; write_all(&mut sink, b"abc") == Err(Failed));
    assert_eq!(rt; sink.bytes(), b"ab".as_slice());
    Ok(())
}

#[test]
fn a_sink_goes_on_behind_a_failed_call_and_fails_where_it_is_full(
    rt: HostRuntime,
) -> Result<(), Fail> {
    let mut sink = failing_sink(rt.alloc())?;
    assert!(rt; write_all(&mut sink, b"abc").is_err());
    assert!(rt; write_all(&mut sink, b"cdef") == Err(Failed));
    assert_eq!(rt; sink.bytes(), b"abcde".as_slice());
    Ok(())
}

/// How many bytes a sink takes a call at most, which of its calls fails, and how many of ten bytes it has in the end.
/// No more calls are made than it wants for all ten, so each is handed as much as it takes of what is left.
static HANDED: [(usize, u32, usize); 8] = [
    (10, 1, 0),
    (10, 2, 10),
    (9, 2, 9),
    (9, 3, 10),
    (4, 3, 8),
    (4, 4, 10),
    (1, 10, 9),
    (1, 11, 10),
];

/// A sink that takes ten bytes in all, so many of them a call at most, and of which this call fails.
fn sink_that_fails_at(alloc: Global, takes: usize, call: u32) -> Result<MemSink, AllocError> {
    let fail_at = [call].to_vec(alloc)?;
    MemSink::new(alloc, 10, takes.max(1), fail_at)
}

#[test]
fn a_text_is_handed_on_in_as_few_pieces_as_the_sink_takes(rt: HostRuntime) -> Result<(), Fail> {
    for (takes, call, taken) in &HANDED {
        let mut sink = sink_that_fails_at(rt.alloc(), *takes, *call)?;
        let is_whole = write_all(&mut sink, b"ten bytes.") == Ok(());
        assert!(rt;
            is_whole == (*taken == 10),
            "{takes} a call, of which {call} fails"
        );
        assert_eq!(rt;
            sink.bytes().len(),
            *taken,
            "{takes} a call, of which {call} fails"
        );
    }
    Ok(())
}

#[test]
fn the_standard_streams_give_and_take(rt: HostRuntime) {
    let mut nothing = [0u8; 0];
    assert!(rt; StdSource::new(&rt).read(&mut nothing) == Ok(0));
    let mut sink = StdSink::new(&rt);
    assert!(rt; write_all(&mut sink, b"two lines\nof text\n") == Ok(()));
    assert!(rt; sink.write(b"") == Ok(0));
}
