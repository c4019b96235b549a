//! The command `save`: what it writes at the commit limit, what can't be saved, runs that end before the limit, and
//! runs that continue from what was saved.

use crate::tests::images::{
    BELOW, CHILD, CUT, DEEPER, DEEPER_AT_2, FULL_FRONT, FULL_TASK, OUTSIDE, READER, SAVED_CHILD,
    SAVED_READER, SAVED_SIX, SAVED_TWO, SAVED_TWO_AT_2, SIX, STACKED, TIE, TWO, TWO_AT_2,
};
use crate::tests::{Case, PIECES, bytes_of, each_holds, leaves};
use std::alloc::{Alloc, Global};
use std::test::Fail;

static SAVES: [Case; 30] = [
    Case {
        words: "save --commits 1",
        read: (TWO, ""),
        written: (SAVED_TWO, ""),
        left: (4, "limit", 1, Some(4)),
    },
    Case {
        words: "run",
        read: (SAVED_TWO, ""),
        written: ("", "fractal 1\n1 0.0 1 4294967295\noutput 42\nend normal\n"),
        left: (0, "normal", 1, Some(4)),
    },
    Case {
        words: "save --commits 2",
        read: (TIE, ""),
        written: ("", "fault nested 2\n"),
        left: (12, "limit", 2, Some(10)),
    },
    Case {
        words: "save --commits 5",
        read: (TIE, ""),
        written: (
            "",
            "fractal 1\n1 0.0 1 5\n2 1.2 2 1\n3 1.1 2 2\n4 1.0 2 3\n5 0.1 1 5\noutput -\nend normal\n",
        ),
        left: (0, "normal", 5, Some(19)),
    },
    Case {
        words: "save --commits 1 --workers 2",
        read: (TWO, ""),
        written: (SAVED_TWO, ""),
        left: (4, "limit", 1, None),
    },
    Case {
        words: "save --commits 1 --workers 16",
        read: (TWO, ""),
        written: (SAVED_TWO, ""),
        left: (4, "limit", 1, None),
    },
    Case {
        words: "save --commits 2 --workers 2",
        read: (TIE, ""),
        written: ("", "fault nested 2\n"),
        left: (12, "limit", 2, None),
    },
    Case {
        words: "save --commits 2 --workers 16",
        read: (TIE, ""),
        written: ("", "fault nested 2\n"),
        left: (12, "limit", 2, None),
    },
    Case {
        words: "save --commits 1",
        read: (CHILD, ""),
        written: (SAVED_CHILD, ""),
        left: (4, "limit", 1, Some(5)),
    },
    Case {
        words: "run",
        read: (SAVED_CHILD, ""),
        written: ("", "fractal 1\n1 0.0 1 5\noutput 43\nend normal\n"),
        left: (0, "normal", 1, Some(4)),
    },
    Case {
        words: "save",
        read: (CHILD, ""),
        written: (
            "",
            "fractal 1\n1 0.0 1 5\n2 1.0 1 5\noutput 5043\nend normal\n",
        ),
        left: (0, "normal", 2, Some(9)),
    },
    Case {
        words: "save --workers 2",
        read: (CHILD, ""),
        written: (
            "",
            "fractal 1\n1 0.0 1 5\n2 1.0 1 5\noutput 5043\nend normal\n",
        ),
        left: (0, "normal", 2, None),
    },
    Case {
        words: "save --workers 16",
        read: (CHILD, ""),
        written: (
            "",
            "fractal 1\n1 0.0 1 5\n2 1.0 1 5\noutput 5043\nend normal\n",
        ),
        left: (0, "normal", 2, None),
    },
    Case {
        words: "save --commits 1",
        read: (READER, ""),
        written: (SAVED_READER, ""),
        left: (4, "limit", 1, Some(4)),
    },
    Case {
        words: "save --tiles 2 --cores 1 --commits 1 --workers 2",
        read: (READER, ""),
        written: (SAVED_READER, ""),
        left: (4, "limit", 1, None),
    },
    Case {
        words: "run",
        read: (SAVED_READER, ""),
        written: (
            "",
            "fractal 1\n1 0.0 1 2\n2 1.0 1 2\noutput -\nwindow 10000000 00000007\nwindow 10000004 00000008\n\
        end normal\n",
        ),
        left: (0, "normal", 2, Some(9)),
    },
    Case {
        words: "save --commits 1 --tiles 1 --task-queue 4",
        read: (SIX, ""),
        written: (SAVED_SIX, ""),
        left: (4, "limit", 1, Some(9)),
    },
    Case {
        words: "run",
        read: (SAVED_SIX, ""),
        written: (
            "",
            "fractal 1\n1 0.5 1 1\n2 0.4 1 2\n3 0.3 1 3\n4 0.2 1 4\n5 0.1 1 5\n6 0.0 1 6\noutput -\nend normal\n",
        ),
        left: (0, "normal", 6, Some(18)),
    },
    Case {
        words: "save",
        read: (OUTSIDE, ""),
        written: ("", "fractal 1\noutput -\nend trap 2 00010000 0.0\n"),
        left: (3, "trap", 0, Some(2)),
    },
    Case {
        words: "save --commits 1 --workers 2",
        read: (OUTSIDE, ""),
        written: ("", "fractal 1\noutput -\nend trap 2 00010000 0.0\n"),
        left: (3, "trap", 0, None),
    },
    Case {
        words: "save --commits 1",
        read: (BELOW, ""),
        written: ("", "fault nested 2\n"),
        left: (12, "limit", 1, Some(5)),
    },
    Case {
        words: "save --commits 2",
        read: (BELOW, ""),
        written: (
            "",
            "fractal 1\n1 0.0 1 5\noutput -\nend trap 10 0001003c 1.0\n",
        ),
        left: (3, "trap", 1, Some(7)),
    },
    Case {
        words: "save --commits 3",
        read: (DEEPER, ""),
        written: ("", "fault nested 4\n"),
        left: (12, "limit", 3, Some(15)),
    },
    Case {
        words: "save",
        read: (CUT, ""),
        written: ("", "fault image 1 51\n"),
        left: (2, "none", 0, None),
    },
    Case {
        words: "save 1",
        read: (TWO, ""),
        written: ("", "fault usage\n"),
        left: (1, "none", 0, None),
    },
    Case {
        words: "save --commits 0",
        read: (TWO, ""),
        written: ("", "fault usage\n"),
        left: (1, "none", 0, None),
    },
    Case {
        words: "save --commits 1",
        read: (TWO_AT_2, ""),
        written: (SAVED_TWO_AT_2, ""),
        left: (4, "limit", 1, Some(4)),
    },
    Case {
        words: "run",
        read: (SAVED_TWO_AT_2, ""),
        written: ("", "fractal 1\n1 0.0 1 4294967295\noutput 42\nend normal\n"),
        left: (0, "normal", 1, Some(4)),
    },
    Case {
        words: "save --commits 14",
        read: (DEEPER_AT_2, ""),
        written: ("", "fault nested 15\n"),
        left: (12, "limit", 14, Some(70)),
    },
    Case {
        words: "save --commits 1",
        read: (STACKED, ""),
        written: ("", "fractal 1\n1 0.0 1 0\noutput 41\nend normal\n"),
        left: (0, "normal", 1, Some(4)),
    },
];

#[test]
fn saved_runs_are_told(rt: HostRuntime) -> Result<(), Fail> {
    each_holds(&rt, &SAVES)
}

/// An image of 65,536 tasks, as many as an image may have.
fn full_image(alloc: Global) -> Result<Vec<u8>, Fail> {
    let mut bytes = bytes_of(alloc, FULL_FRONT, "")?;
    let task = bytes_of(alloc, FULL_TASK, "")?;
    for _ in 1..65_536 {
        bytes.extend_from_slice(&task)?;
    }
    Ok(bytes)
}

// The first task commits and leaves 64 children beside the 65,535 others.
#[test]
fn more_tasks_than_an_image_may_have_are_told(rt: HostRuntime) -> Result<(), Fail> {
    let bytes = full_image(rt.alloc())?;
    leaves(
        &rt,
        "save --commits 1",
        bytes,
        PIECES,
        b"fault tasks 65599\n",
        (13, "limit", 1, Some(67)),
    )
}
