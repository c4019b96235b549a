//! Damaged input, and devices that fail or are full.

use crate::tests::images::{EMIT, SAVED_TWO, TIE, TWO};
use crate::tests::{Case, PIECES, Streams, bytes_of, holds, leaves};
use std::alloc::{Alloc, Global};
use std::process::Abort;
use std::sync::Wait;
use std::test::Fail;
use std::thread::Threads;

/// Streams that give and take one byte at a call.
const BYTEWISE: Streams = Streams {
    gives: 1,
    takes: 1,
    ..PIECES
};

/// Streams that give and take all that there is at one call.
const WHOLE: Streams = Streams {
    gives: 4096,
    takes: 4096,
    ..PIECES
};

/// A prefix of an image is reported as too short.
fn is_short(
    rt: &(impl Abort + Alloc<A = Global> + Threads + Wait + Sync),
    length: usize,
) -> Result<(), Fail> {
    let alloc = rt.alloc();
    let mut bytes = bytes_of(alloc, EMIT, "")?;
    bytes.truncate(length);
    let line = format!(in alloc; "fault image 1 {length}\n")?;
    leaves(
        rt,
        "run",
        bytes,
        BYTEWISE,
        line.as_bytes(),
        (2, "none", 0, None),
    )
}

#[test]
fn each_front_of_an_image_is_short(rt: HostRuntime) -> Result<(), Fail> {
    for length in 0..72usize {
        is_short(&rt, length)?;
    }
    Ok(())
}

#[test]
fn a_source_that_fails_at_any_call_is_told(rt: HostRuntime) -> Result<(), Fail> {
    let alloc = rt.alloc();
    for unread in 1..74 {
        let streams = Streams { unread, ..BYTEWISE };
        leaves(
            &rt,
            "run",
            bytes_of(alloc, EMIT, "")?,
            streams,
            b"",
            (6, "none", 0, None),
        )?;
    }
    Ok(())
}

// Calls of which each front is written to a sink that fails.
static FRONTS: [Case; 2] = [
    Case {
        words: "run",
        read: (TWO, ""),
        written: (
            "",
            "fractal 1\n1 0.1 1 0\n2 0.0 1 4294967295\noutput 4142\nend normal\n",
        ),
        left: (7, "normal", 2, Some(8)),
    },
    Case {
        words: "save --commits 1",
        read: (TWO, ""),
        written: (SAVED_TWO, ""),
        left: (7, "limit", 1, Some(4)),
    },
];

/// A sink that takes one byte at a call has the front of what is written where a call of it fails.
fn has_each_front(
    rt: &(impl Abort + Alloc<A = Global> + Threads + Wait + Sync),
    case: &Case,
) -> Result<(), Fail> {
    let alloc = rt.alloc();
    let written = bytes_of(alloc, case.written.0, case.written.1)?;
    // Neither writes as many as a thousand bytes.
    for place in 0..written.len().min(1_000) {
        let streams = Streams {
            unwritten: place as u32 + 1,
            ..BYTEWISE
        };
        let bytes = bytes_of(alloc, case.read.0, case.read.1)?;
        leaves(rt, case.words, bytes, streams, &written[..place], case.left)?;
    }
    Ok(())
}

#[test]
fn a_sink_that_fails_at_any_call_has_the_front(rt: HostRuntime) -> Result<(), Fail> {
    for case in &FRONTS {
        has_each_front(&rt, case)?;
    }
    Ok(())
}

static FAULTS: [(Case, Streams); 9] = [
    (
        Case {
            words: "run",
            read: (EMIT, ""),
            written: ("", "fractal 1\n1 0.0 1 0\n"),
            left: (7, "normal", 1, Some(4)),
        },
        Streams { most: 20, ..WHOLE },
    ),
    (
        Case {
            words: "steps",
            read: (EMIT, "advance\n"),
            written: ("", ""),
            left: (6, "none", 0, None),
        },
        Streams { unread: 2, ..WHOLE },
    ),
    (
        Case {
            words: "steps",
            read: (EMIT, "advance\n"),
            written: ("", "moved 0\n"),
            left: (7, "open", 0, Some(1)),
        },
        Streams {
            unwritten: 2,
            ..WHOLE
        },
    ),
    (
        Case {
            words: "trace",
            read: (EMIT, "advance\n"),
            written: ("", ""),
            left: (6, "none", 0, None),
        },
        Streams { unread: 2, ..WHOLE },
    ),
    (
        Case {
            words: "trace",
            read: (EMIT, "advance\n"),
            written: ("", "trace 1\n"),
            left: (7, "open", 0, Some(1)),
        },
        Streams {
            unwritten: 2,
            ..WHOLE
        },
    ),
    (
        Case {
            words: "save --commits 1",
            read: (TWO, ""),
            written: ("", ""),
            left: (6, "none", 0, None),
        },
        Streams { unread: 2, ..WHOLE },
    ),
    (
        Case {
            words: "save --commits 1",
            read: (TWO, ""),
            written: ("4652414301000100040000000000000000000000", ""),
            left: (7, "limit", 1, Some(4)),
        },
        Streams { most: 20, ..PIECES },
    ),
    (
        Case {
            words: "save --commits 1 --workers 2",
            read: (TWO, ""),
            written: ("", ""),
            left: (7, "limit", 1, None),
        },
        Streams {
            unwritten: 1,
            ..WHOLE
        },
    ),
    (
        Case {
            words: "save --commits 2",
            read: (TIE, ""),
            written: ("", "fault "),
            left: (7, "limit", 2, Some(10)),
        },
        Streams {
            unwritten: 3,
            ..PIECES
        },
    ),
];

#[test]
fn devices_that_fail_are_told(rt: HostRuntime) -> Result<(), Fail> {
    for (case, streams) in &FAULTS {
        holds(&rt, case, *streams)?;
    }
    Ok(())
}

/// One byte more than is read is reported.
fn long_is_told(
    rt: &(impl Abort + Alloc<A = Global> + Threads + Wait + Sync),
    words: &str,
) -> Result<(), Fail> {
    let mut bytes = Vec::new(rt.alloc());
    bytes.resize(67_108_865, 0)?;
    let streams = Streams {
        gives: 1_048_576,
        ..WHOLE
    };
    leaves(
        rt,
        words,
        bytes,
        streams,
        b"fault long\n",
        (10, "none", 0, None),
    )
}

#[test]
fn images_that_are_too_long_are_told(rt: HostRuntime) -> Result<(), Fail> {
    long_is_told(&rt, "run")?;
    long_is_told(&rt, "save")
}

#[test]
fn scripts_that_are_too_long_are_told(rt: HostRuntime) -> Result<(), Fail> {
    long_is_told(&rt, "steps")?;
    long_is_told(&rt, "trace")
}
