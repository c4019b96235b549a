//! Generated images: their reports and their events. The source fails at its first call, to show that it is not read.

use crate::tests::{Case, PIECES, Streams, holds};
use std::test::Fail;

static LOADS: [Case; 6] = [
    Case {
        words: "load nest 0 8",
        read: ("", ""),
        written: (
            "",
            "load nest 0 8\ncommits 24\noutput -\nwindow 10000000 00000005\nwindow 10000004 00000007\n\
            window 10000008 00000009\nwindow 1000000c 00000003\nwindow 10000010 00000005\n\
            window 10000014 00000007\nwindow 10000018 00000009\nwindow 1000001c 0000000b\nend normal\n",
        ),
        left: (0, "normal", 24, Some(128)),
    },
    Case {
        words: "load walk 1 1",
        read: ("", ""),
        written: (
            "",
            "load walk 1 1\ncommits 2\noutput -\nwindow 1000000c 00000001\nend normal\n",
        ),
        left: (0, "normal", 2, Some(13)),
    },
    Case {
        words: "load walk 7 200 --workers 2",
        read: ("", ""),
        written: (
            "",
            "load walk 7 200\ncommits 400\noutput -\nwindow 10000c70 00000008\nwindow 10000c74 00000008\n\
            window 10000c78 00000008\nwindow 10000c7c 00000008\nend normal\n",
        ),
        left: (0, "normal", 400, None),
    },
    Case {
        words: "load nest 0 1000",
        read: ("", ""),
        written: (
            "",
            "load nest 0 1000\ncommits 3000\noutput -\nwindow 10000000 0001e6d1\nwindow 10000004 0001e7cb\n\
            window 10000008 0001e8c5\nwindow 1000000c 0001e5d7\nwindow 10000010 0001e6d1\n\
            window 10000014 0001e7cb\nwindow 10000018 0001e8c5\nwindow 1000001c 0001e9bf\nend normal\n",
        ),
        left: (0, "normal", 3000, Some(16_768)),
    },
    Case {
        words: "load walk 7 1000",
        read: ("", ""),
        written: (
            "",
            "load walk 7 1000\ncommits 2000\noutput -\nwindow 10003e70 0000000a\nwindow 10003e74 0000000a\n\
            window 10003e78 0000000a\nwindow 10003e7c 0000000a\nend normal\n",
        ),
        left: (0, "normal", 2000, Some(14_943)),
    },
    Case {
        words: "load walk 7 1000 --workers 2",
        read: ("", ""),
        written: (
            "",
            "load walk 7 1000\ncommits 2000\noutput -\nwindow 10003e70 0000000a\nwindow 10003e74 0000000a\n\
            window 10003e78 0000000a\nwindow 10003e7c 0000000a\nend normal\n",
        ),
        left: (0, "normal", 2000, None),
    },
];

/// Streams of which the source can't be read.
const UNREAD: Streams = Streams {
    unread: 1,
    ..PIECES
};

#[test]
fn generated_images_are_told(rt: HostRuntime) -> Result<(), Fail> {
    for case in &LOADS {
        holds(&rt, case, UNREAD)?;
    }
    Ok(())
}

/// A load that workers run, the same at each run.
const LARGE: Case = Case {
    words: "load walk 7 20000 --tiles 8 --workers 8",
    read: ("", ""),
    written: (
        "",
        "load walk 7 20000\ncommits 40000\noutput -\nwindow 1004e1f0 0000000f\nwindow 1004e1f4 0000000f\n\
        window 1004e1f8 0000000f\nwindow 1004e1fc 0000000f\nend normal\n",
    ),
    left: (0, "normal", 40_000, None),
};

// The first has more tasks than there are dispatch numbers, so those in use are renumbered on the way. The last is
// on a sink that takes each piece whole and fails at its third call.
static LARGE_LOADS: [(Case, Streams); 4] = [
    (
        Case {
            words: "load walk 1 40000",
            read: ("", ""),
            written: (
                "",
                "load walk 1 40000\ncommits 80000\noutput -\nwindow 1009c3f0 00000010\n\
                window 1009c3f4 00000010\nwindow 1009c3f8 00000010\nwindow 1009c3fc 00000010\nend normal\n",
            ),
            left: (0, "normal", 80_000, Some(637_559)),
        },
        UNREAD,
    ),
    (LARGE, UNREAD),
    (LARGE, UNREAD),
    (
        Case {
            words: "load walk 7 20000 --tiles 8 --workers 8",
            read: ("", ""),
            written: ("", "load walk 7 20000\ncommits 40000\n"),
            left: (7, "normal", 40_000, None),
        },
        Streams {
            gives: 4096,
            unread: 1,
            takes: 4096,
            unwritten: 3,
            most: 10_000,
        },
    ),
];

#[test]
fn large_generated_images_are_told(rt: HostRuntime) -> Result<(), Fail> {
    for (case, streams) in &LARGE_LOADS {
        holds(&rt, case, *streams)?;
    }
    Ok(())
}
