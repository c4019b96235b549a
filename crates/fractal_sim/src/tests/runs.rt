//! Runs and checks, in both versions of images.

use crate::tests::images::{
    BELOW, BIG, CHILD, CUT, DEEPER, DEEPER_AT_2, EARLY, EMIT, FLOOR, MANY, MORE, MORE_AT_2,
    MOST_AT_2, ODD, OUTSIDE, PAST, READER, ROOT, STACKED, STORE, THIRD, TIE, TWO,
};
use crate::tests::reports::{DEEPER_REPORT, MANY_REPORT, MORE_REPORT};
use crate::tests::{Case, each_holds};
use std::test::Fail;

static RUNS: [Case; 23] = [
    Case {
        words: "run",
        read: (EMIT, ""),
        written: ("", "fractal 1\n1 0.0 1 0\noutput 41\nend normal\n"),
        left: (0, "normal", 1, Some(4)),
    },
    Case {
        words: "run",
        read: ("", ""),
        written: ("", "fault image 1 0\n"),
        left: (2, "none", 0, None),
    },
    Case {
        words: "run",
        read: (CUT, ""),
        written: ("", "fault image 1 51\n"),
        left: (2, "none", 0, None),
    },
    Case {
        words: "run",
        read: (OUTSIDE, ""),
        written: ("", "fractal 1\noutput -\nend trap 2 00010000 0.0\n"),
        left: (3, "trap", 0, Some(2)),
    },
    Case {
        words: "run",
        read: (TWO, ""),
        written: (
            "",
            "fractal 1\n1 0.1 1 0\n2 0.0 1 4294967295\noutput 4142\nend normal\n",
        ),
        left: (0, "normal", 2, Some(8)),
    },
    Case {
        words: "run",
        read: (CHILD, ""),
        written: (
            "",
            "fractal 1\n1 0.0 1 5\n2 1.0 1 5\noutput 5043\nend normal\n",
        ),
        left: (0, "normal", 2, Some(9)),
    },
    Case {
        words: "run",
        read: (EARLY, ""),
        written: ("", "fractal 1\noutput -\nend trap 10 00010020 0.0\n"),
        left: (3, "trap", 0, Some(3)),
    },
    Case {
        words: "run",
        read: (FLOOR, ""),
        written: (
            "",
            "fractal 1\n1 0.0 1 5\n2 1.0 2 0\n3 2.0 1 5\noutput -\nend normal\n",
        ),
        left: (0, "normal", 3, Some(12)),
    },
    Case {
        words: "run",
        read: (BELOW, ""),
        written: (
            "",
            "fractal 1\n1 0.0 1 5\noutput -\nend trap 10 0001003c 1.0\n",
        ),
        left: (3, "trap", 1, Some(7)),
    },
    Case {
        words: "run",
        read: (DEEPER, ""),
        written: (
            "",
            "fractal 1\n1 0.0 1 0\n2 1.0 2 0\n3 2.0 3 0\n4 3.0 4 0\n5 4.0 5 0\n6 5.0 6 0\n\
        7 6.0 7 0\noutput -\nend trap 14 00010008 7.0\n",
        ),
        left: (3, "trap", 7, Some(37)),
    },
    Case {
        words: "run --tiles 1 --task-queue 4",
        read: (MORE, ""),
        written: ("", "fractal 1\noutput -\nend trap 15 00010014 0.0\n"),
        left: (3, "trap", 0, Some(66)),
    },
    Case {
        words: "run",
        read: (ROOT, ""),
        written: ("", "fractal 1\noutput -\nend trap 13 00010004 0.0\n"),
        left: (3, "trap", 0, Some(2)),
    },
    Case {
        words: "run --commits=2",
        read: (TWO, ""),
        written: (
            "",
            "fractal 1\n1 0.1 1 0\n2 0.0 1 4294967295\noutput 4142\nend normal\n",
        ),
        left: (0, "normal", 2, Some(8)),
    },
    Case {
        words: "run --commits 1",
        read: (TWO, ""),
        written: ("", "fractal 1\n1 0.1 1 0\noutput 41\nend limit\n"),
        left: (4, "limit", 1, Some(4)),
    },
    Case {
        words: "run --budget 5",
        read: (EMIT, ""),
        written: ("", "fractal 1\n1 0.0 1 0\noutput 41\nend normal\n"),
        left: (0, "normal", 1, Some(4)),
    },
    Case {
        words: "run --budget 4",
        read: (EMIT, ""),
        written: ("", "fractal 1\noutput -\nend trap 17 00010010 0.0\n"),
        left: (3, "trap", 0, Some(3)),
    },
    Case {
        words: "run",
        read: (PAST, ""),
        written: ("", "fractal 1\noutput -\nend trap 5 00010004 0.0\n"),
        left: (3, "trap", 0, Some(2)),
    },
    Case {
        words: "run",
        read: (ODD, ""),
        written: ("", "fractal 1\noutput -\nend trap 4 00010000 0.0\n"),
        left: (3, "trap", 0, Some(2)),
    },
    Case {
        words: "run",
        read: (STORE, ""),
        written: ("", "fractal 1\noutput -\nend trap 7 00010000 0.0\n"),
        left: (3, "trap", 0, Some(2)),
    },
    Case {
        words: "run",
        read: (BIG, ""),
        written: ("", "fault image 5 8\n"),
        left: (2, "none", 0, None),
    },
    Case {
        words: "run --tiles 2 --workers 2",
        read: (READER, ""),
        written: (
            "",
            "fractal 1\n1 0.1 1 1\n2 0.0 1 2\n3 2.0 1 2\noutput -\nwindow 10000000 00000007\n\
        window 10000004 00000008\nend normal\n",
        ),
        left: (0, "normal", 3, None),
    },
    Case {
        words: "run --workers 16",
        read: (EMIT, ""),
        written: ("", "fractal 1\n1 0.0 1 0\noutput 41\nend normal\n"),
        left: (0, "normal", 1, None),
    },
    Case {
        words: "run --tiles 1 --task-queue 4",
        read: (MANY, ""),
        written: ("", MANY_REPORT),
        left: (0, "normal", 65, Some(322)),
    },
];

#[test]
fn runs_are_told(rt: HostRuntime) -> Result<(), Fail> {
    each_holds(&rt, &RUNS)
}

static CHECKS: [Case; 7] = [
    Case {
        words: "check",
        read: (
            TIE,
            "fractal 1\n1 0.1 1 5\n2 0.0 1 5\n3 2.2 2 1\n4 2.1 2 2\n5 2.0 2 3\noutput -\nend normal\n",
        ),
        written: ("", "check ok 5\n"),
        left: (0, "normal", 5, None),
    },
    Case {
        words: "check",
        read: (
            TIE,
            "fractal 1\n1 0.0 1 5\n2 1.2 2 1\n3 1.1 2 2\n4 1.0 2 3\n5 0.1 1 5\noutput -\nend normal\n",
        ),
        written: ("", "check ok 5\n"),
        left: (0, "normal", 5, None),
    },
    Case {
        words: "check",
        read: (
            TIE,
            "fractal 1\n1 0.0 1 5\n2 1.2 2 1\n3 0.1 1 5\n4 1.1 2 2\n5 1.0 2 3\noutput -\nend normal\n",
        ),
        written: ("", "fault journal 4\n"),
        left: (8, "none", 0, None),
    },
    Case {
        words: "check",
        read: (EMIT, "fractal 1\n1 0.0 1 0\noutput 4G\nend normal\n"),
        written: ("", "fault journal 3\n"),
        left: (8, "none", 0, None),
    },
    Case {
        words: "check",
        read: (EMIT, "fractal 1\n1 0.0 1 0\noutput 42\nend normal\n"),
        written: ("", "fault journal 3\n"),
        left: (8, "none", 0, None),
    },
    Case {
        words: "check",
        read: (EMIT, "fractal 1\n1 0.0 1 0\noutput 41\n"),
        written: ("", "fault journal 4\n"),
        left: (8, "none", 0, None),
    },
    Case {
        words: "check",
        read: (STORE, "fractal 1\n1 0.0 1 0\noutput 41\nend normal\n"),
        written: ("", "fault journal 2\n"),
        left: (8, "none", 0, None),
    },
];

#[test]
fn checks_are_told(rt: HostRuntime) -> Result<(), Fail> {
    each_holds(&rt, &CHECKS)
}

// Calls with invalid arguments.
static MISUSES: [Case; 5] = [
    Case {
        words: "",
        read: (EMIT, ""),
        written: ("", "fault usage\n"),
        left: (1, "none", 0, None),
    },
    Case {
        words: "run --",
        read: (EMIT, ""),
        written: ("", "fault usage\n"),
        left: (1, "none", 0, None),
    },
    Case {
        words: "walk",
        read: (EMIT, ""),
        written: ("", "fault usage\n"),
        left: (1, "none", 0, None),
    },
    Case {
        words: "run --tiles 17",
        read: (EMIT, ""),
        written: ("", "fault usage\n"),
        left: (1, "none", 0, None),
    },
    Case {
        words: "run --tiles 2 --tiles 2",
        read: (EMIT, ""),
        written: ("", "fault usage\n"),
        left: (1, "none", 0, None),
    },
];

#[test]
fn misuses_are_told(rt: HostRuntime) -> Result<(), Fail> {
    each_holds(&rt, &MISUSES)
}

// Images of the second version, with the limits that it moved, and one of version 3, which there isn't.
static STACKED_RUNS: [Case; 7] = [
    Case {
        words: "run",
        read: (STACKED, ""),
        written: ("", "fractal 1\n1 0.0 1 0\noutput 41\nend normal\n"),
        left: (0, "normal", 1, Some(4)),
    },
    Case {
        words: "run --workers 16",
        read: (STACKED, ""),
        written: ("", "fractal 1\n1 0.0 1 0\noutput 41\nend normal\n"),
        left: (0, "normal", 1, None),
    },
    Case {
        words: "run",
        read: (THIRD, ""),
        written: ("", "fault image 3 4\n"),
        left: (2, "none", 0, None),
    },
    Case {
        words: "run --tiles 1 --task-queue 4",
        read: (MORE_AT_2, ""),
        written: ("", MORE_REPORT),
        left: (0, "normal", 66, Some(326)),
    },
    Case {
        words: "run --tiles 1 --task-queue 4",
        read: (MOST_AT_2, ""),
        written: ("", "fractal 1\noutput -\nend trap 15 00010014 0.0\n"),
        left: (3, "trap", 0, Some(258)),
    },
    Case {
        words: "run",
        read: (DEEPER_AT_2, ""),
        written: ("", DEEPER_REPORT),
        left: (3, "trap", 15, Some(77)),
    },
    Case {
        words: "run --workers 2",
        read: (DEEPER_AT_2, ""),
        written: ("", DEEPER_REPORT),
        left: (3, "trap", 15, None),
    },
];

#[test]
fn runs_of_the_second_version_are_told(rt: HostRuntime) -> Result<(), Fail> {
    each_holds(&rt, &STACKED_RUNS)
}

// Reports against images of both versions, with the limits that the second moved.
static STACKED_CHECKS: [Case; 7] = [
    Case {
        words: "check",
        read: (STACKED, "fractal 1\n1 0.0 1 0\noutput 41\nend normal\n"),
        written: ("", "check ok 1\n"),
        left: (0, "normal", 1, None),
    },
    Case {
        words: "check",
        read: (MORE_AT_2, MORE_REPORT),
        written: ("", "check ok 66\n"),
        left: (0, "normal", 66, None),
    },
    Case {
        words: "check",
        read: (MORE, MORE_REPORT),
        written: ("", "fault journal 2\n"),
        left: (8, "none", 0, None),
    },
    Case {
        words: "check",
        read: (DEEPER_AT_2, DEEPER_REPORT),
        written: ("", "check ok 15\n"),
        left: (0, "trap", 15, None),
    },
    Case {
        words: "check",
        read: (DEEPER, DEEPER_REPORT),
        written: ("", "fault journal 9\n"),
        left: (8, "none", 0, None),
    },
    Case {
        words: "check",
        read: (
            STACKED,
            "fractal 1\n1 0.0 2 0\n2 1.0 16 0\noutput 41\nend normal\n",
        ),
        written: ("", "fault journal 2\n"),
        left: (8, "none", 0, None),
    },
    Case {
        words: "check",
        read: (
            STACKED,
            "fractal 1\n1 0.0 2 0\n2 1.0 17 0\noutput 41\nend normal\n",
        ),
        written: ("", "fault journal 3\n"),
        left: (8, "none", 0, None),
    },
];

#[test]
fn checks_of_the_second_version_are_told(rt: HostRuntime) -> Result<(), Fail> {
    each_holds(&rt, &STACKED_CHECKS)
}
