//! Texts of replies to acts and of what taps saw, and the pieces in which they are written.

use crate::conflict_book::Reply;
use crate::step_script::{Said, Word};
use script_text::{write_replies, write_trace};
use sim_io::{Failed, MemSink};
use std::alloc::{AllocError, Global};
use std::test::Fail;

/// Replies to acts.
static REPLIES: [Said; 9] = [
    Said {
        word: Word::Plain(Reply::Ok),
        aborted: 2,
    },
    Said {
        word: Word::Plain(Reply::Empty),
        aborted: 0,
    },
    Said {
        word: Word::Plain(Reply::Busy),
        aborted: 0,
    },
    Said {
        word: Word::Plain(Reply::Stall),
        aborted: 0,
    },
    Said {
        word: Word::Plain(Reply::Stale),
        aborted: 0,
    },
    Said {
        word: Word::Plain(Reply::Firm),
        aborted: 0,
    },
    Said {
        word: Word::Plain(Reply::Ended),
        aborted: 0,
    },
    Said {
        word: Word::Moved,
        aborted: 4_294_967_295,
    },
    Said {
        word: Word::Committed,
        aborted: 0,
    },
];

/// The lines of these replies.
static LINES: &[u8] =
    b"ok 2\nempty 0\nbusy 0\nstall 0\nstale 0\nfirm 0\nended 0\nmoved 4294967295\ncommitted 0\n";

/// A sink that takes 1,000 bytes at most, and fails at these calls, counted from 1.
fn sink_of(alloc: Global, fail_at: &[u32]) -> Result<MemSink, AllocError> {
    MemSink::new(alloc, 1000, 1000, fail_at.to_vec(alloc)?)
}

#[test]
fn replies_are_a_line_each(rt: HostRuntime) -> Result<(), Fail> {
    let mut sink = sink_of(rt.alloc(), &[])?;
    assert!(rt; write_replies(&mut sink, &REPLIES) == Ok(()));
    assert_eq!(rt; sink.bytes(), LINES);
    Ok(())
}

#[test]
fn a_failing_sink_has_the_lines_before(rt: HostRuntime) -> Result<(), Fail> {
    let mut sink = sink_of(rt.alloc(), &[3])?;
    assert!(rt; write_replies(&mut sink, &REPLIES) == Err(Failed));
    assert_eq!(rt; sink.bytes(), b"ok 2\nempty 0\n".as_slice());
    Ok(())
}

#[test]
fn a_trace_of_no_tap_has_its_ends(rt: HostRuntime) -> Result<(), Fail> {
    let mut sink = sink_of(rt.alloc(), &[])?;
    assert!(rt; write_trace(&mut sink, &[]) == Ok(()));
    assert_eq!(rt; sink.bytes(), b"trace 1\nend trace\n".as_slice());
    Ok(())
}

/// The numbers of two taps.
fn two_taps(alloc: Global) -> Result<Vec<Vec<u64>>, AllocError> {
    let mut lists = Vec::new(alloc);
    lists.push([3, 0, 0, 0, 2, 6, 0, 0, 0, 3].to_vec(alloc)?)?;
    lists.push([2, 18_446_744_073_709_551_615].to_vec(alloc)?)?;
    Ok(lists)
}

/// Their lines.
static TRACE: &[u8] =
    b"trace 1\ntap 0 10\n3\n0\n0\n0\n2\n6\n0\n0\n0\n3\ntap 1 2\n2\n18446744073709551615\nend trace\n";

#[test]
fn a_trace_has_the_numbers_of_each_tap(rt: HostRuntime) -> Result<(), Fail> {
    let lists = two_taps(rt.alloc())?;
    let mut sink = sink_of(rt.alloc(), &[])?;
    assert!(rt; write_trace(&mut sink, &lists) == Ok(()));
    assert_eq!(rt; sink.bytes(), TRACE);
    Ok(())
}
