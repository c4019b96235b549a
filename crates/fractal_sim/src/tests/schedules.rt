//! Scripts that are played: the replies to the acts and the report, what the taps saw, and the status.

use crate::tests::images::{
    APART, CROWD, CUT, EMIT, ENDING, FOUR, OUTSIDE, POINTER, READER, STACKED, STORE,
};
use crate::tests::{Case, each_holds};
use std::test::Fail;

// The reader is aborted by the writer, with its child, and reads again.
pub(super) const CONFLICT: &str =
    "dispatch 0\nstep 0 0\nstep 0 0\nstep 0 0\ndispatch 1\nstep 1 0\nstep 1 0\ncommit\n\
    dispatch 0\nstep 0 0\nstep 0 0\nstep 0 0\nstep 0 0\ncommit\ndispatch 0\nstep 0 0\ncommit\n";

// The task whose pointer isn't stored yet traps, is aborted, and reads the right one.
const TRAPPED: &str =
    "dispatch 0\nstep 0 0\nstep 0 0\nstep 0 0\ncommit\ndispatch 1\nstep 1 0\nstep 1 0\ncommit\n\
    dispatch 0\nstep 0 0\nstep 0 0\nstep 0 0\nstep 0 0\ncommit\n";

// A full queue lets the task stall that isn't the least; as the least it has room made.
const STALLED: &str =
    "dispatch 0\nstep 0 0\nstep 0 0\nstep 0 0\nstep 0 0\ndispatch 1\nstep 1 0\ncommit\nstep 0 0\n\
    abort 0\ndispatch 0\ncoalesce 0\ncoalesce 0\nsplit 0\n";

static SCHEDULES: [Case; 26] = [
    // A store aborts the reader with its child, and another one the task that trapped.
    Case {
        words: "steps --tiles 2 --cores 1",
        read: (READER, CONFLICT),
        written: (
            "",
            "ok 0\nok 0\nok 0\nok 0\nok 0\nok 2\nok 0\nok 0\nok 0\nok 0\nok 0\nok 0\nok 0\nok 0\nok 0\nok 0\nok 0\n\
        fractal 1\n1 0.1 1 1\n2 0.0 1 2\n3 2.0 1 2\noutput -\nwindow 10000000 00000007\n\
        window 10000004 00000008\nend normal\n",
        ),
        left: (0, "normal", 3, Some(17)),
    },
    Case {
        words: "steps --tiles 2 --cores 1",
        read: (POINTER, TRAPPED),
        written: (
            "",
            "ok 0\nok 0\nok 0\nstale 0\nempty 0\nok 0\nok 1\nok 0\nok 0\nok 0\nok 0\nok 0\nok 0\nok 0\nok 0\n\
        fractal 1\n1 0.1 1 1\n2 0.0 1 2\noutput 5a\nend normal\n",
        ),
        left: (0, "normal", 2, Some(13)),
    },
    // With a full commit queue the earlier task aborts the later one when it ends, and the later one stalls.
    Case {
        words: "steps --tiles 1 --cores 2 --commit-queue 1",
        read: (
            ENDING,
            "dispatch 0\ndispatch 0\nstep 0 1\nstep 0 0\ncommit\ndispatch 0\nstep 0 0\ncommit\n",
        ),
        written: (
            "",
            "ok 0\nok 0\nok 0\nok 1\nok 0\nok 0\nok 0\nok 0\nfractal 1\n1 0.0 1 1\n2 0.1 1 2\noutput -\nend normal\n",
        ),
        left: (0, "normal", 2, Some(8)),
    },
    Case {
        words: "steps --tiles 1 --cores 2 --commit-queue 1",
        read: (ENDING, "dispatch 0\ndispatch 0\nstep 0 0\nstep 0 1\n"),
        written: (
            "",
            "ok 0\nok 0\nok 0\nstall 0\nfractal 1\noutput -\nend open\n",
        ),
        left: (0, "open", 0, Some(3)),
    },
    // A leg that is held is stale once its task has gone on.
    Case {
        words: "steps --tiles 2 --cores 1",
        read: (
            READER,
            "dispatch 0\ntake 0 0\nstep 0 0\nstep 0 0\ngive 0 0\n",
        ),
        written: (
            "",
            "ok 0\nok 0\nok 0\nok 0\nstale 0\n\
        fractal 1\noutput -\nwindow 10000000 00000000\nwindow 10000004 00000000\nend open\n",
        ),
        left: (0, "open", 0, Some(3)),
    },
    // With a full task queue a task stalls that isn't the least, and has room made once it is.
    Case {
        words: "steps --tiles 2 --cores 1 --task-queue 4",
        read: (CROWD, STALLED),
        written: (
            "",
            "ok 0\nok 0\nok 0\nok 0\nstall 0\nok 0\nok 0\nok 0\nok 0\nfirm 0\nbusy 0\nok 0\nempty 0\nok 0\n\
        fractal 1\n1 0.1 1 1\noutput -\nend open\n",
        ),
        left: (0, "open", 1, Some(10)),
    },
    // The word that is read and the one that is written lie 16,384 bytes apart. Lines of 16 bytes are 1,024 apart
    // there, so they share one bit of the filter, and the reader is aborted. Lines of 64 bytes are 256 apart, and have
    // a bit each.
    Case {
        words: "steps --tiles 2 --cores 1",
        read: (APART, "dispatch 0\nstep 0 0\ndispatch 1\nstep 1 0\n"),
        written: (
            "",
            "ok 0\nok 0\nok 0\nok 1\nfractal 1\noutput -\nend open\n",
        ),
        left: (0, "open", 0, Some(4)),
    },
    Case {
        words: "steps --tiles 2 --cores 1 --line 64",
        read: (APART, "dispatch 0\nstep 0 0\ndispatch 1\nstep 1 0\n"),
        written: (
            "",
            "ok 0\nok 0\nok 0\nok 0\nfractal 1\noutput -\nend open\n",
        ),
        left: (0, "open", 0, Some(4)),
    },
    // With a full task queue the least task has a later one aborted and spilled for its child; then a split stalls.
    Case {
        words: "steps --tiles 1 --cores 4 --task-queue 4",
        read: (
            FOUR,
            "dispatch 0\ndispatch 0\ndispatch 0\ndispatch 0\nstep 0 0\nstep 0 0\nsplit 0\n",
        ),
        written: (
            "",
            "ok 0\nok 0\nok 0\nok 0\nok 1\nok 0\nstall 0\nfractal 1\noutput -\nend open\n",
        ),
        left: (0, "open", 0, Some(6)),
    },
    // Texts that aren't scripts: a missing tile, an empty line, a missing core.
    Case {
        words: "steps --tiles 2 --cores 1",
        read: (READER, "dispatch 2\n"),
        written: ("", "fault script 1\n"),
        left: (9, "none", 0, None),
    },
    Case {
        words: "steps --tiles 2 --cores 1",
        read: (READER, "dispatch 0\n\ncommit\n"),
        written: ("", "fault script 2\n"),
        left: (9, "none", 0, None),
    },
    Case {
        words: "steps --tiles 2 --cores 1",
        read: (READER, "step 0 1\n"),
        written: ("", "fault script 1\n"),
        left: (9, "none", 0, None),
    },
    // No image, and words that are refused.
    Case {
        words: "steps",
        read: (CUT, ""),
        written: ("", "fault image 1 51\n"),
        left: (2, "none", 0, None),
    },
    Case {
        words: "steps 1",
        read: (EMIT, "advance\n"),
        written: ("", "fault usage\n"),
        left: (1, "none", 0, None),
    },
    // Runs that end in a trap and at the commit limit, and one that isn't over, for which workers make no difference.
    Case {
        words: "steps --tiles 1",
        read: (OUTSIDE, "dispatch 0\nstep 0 0\nadvance\n"),
        written: (
            "",
            "ok 0\nok 0\nended 0\nfractal 1\noutput -\nend trap 2 00010000 0.0\n",
        ),
        left: (3, "trap", 0, Some(2)),
    },
    Case {
        words: "steps --tiles 1 --commits 1",
        read: (ENDING, "dispatch 0\nstep 0 0\ncommit\n"),
        written: (
            "",
            "ok 0\nok 0\nok 0\nfractal 1\n1 0.0 1 1\noutput -\nend limit\n",
        ),
        left: (4, "limit", 1, Some(3)),
    },
    Case {
        words: "steps --workers 2",
        read: (EMIT, "advance\n"),
        written: ("", "moved 0\nfractal 1\noutput -\nend open\n"),
        left: (0, "open", 0, Some(1)),
    },
    // Calls of `trace`: no script, no image, invalid arguments; then what the taps saw of no act, and of a run that
    // ended in a trap.
    Case {
        words: "trace --tiles 2 --cores 1",
        read: (READER, "dispatch 2\n"),
        written: ("", "fault script 1\n"),
        left: (9, "none", 0, None),
    },
    Case {
        words: "trace",
        read: (CUT, ""),
        written: ("", "fault image 1 51\n"),
        left: (2, "none", 0, None),
    },
    Case {
        words: "trace 1",
        read: (EMIT, "advance\n"),
        written: ("", "fault usage\n"),
        left: (1, "none", 0, None),
    },
    Case {
        words: "trace --tiles 1",
        read: (OUTSIDE, ""),
        written: (
            "",
            "trace 1\ntap 0 0\ntap 1 17\n0\n0\n0\n0\n0\n0\n0\n0\n0\n0\n0\n0\n0\n0\n0\n0\n0\nend trace\n",
        ),
        left: (0, "open", 0, Some(0)),
    },
    Case {
        words: "trace --tiles 1",
        read: (OUTSIDE, "dispatch 0\nstep 0 0\nadvance\n"),
        written: (
            "",
            "trace 1\ntap 0 10\n1\n0\n0\n0\n0\n4\n0\n0\n0\n0\n\
        tap 1 17\n0\n0\n0\n0\n0\n0\n0\n0\n0\n0\n0\n0\n0\n0\n0\n0\n0\nend trace\n",
        ),
        left: (0, "trap", 0, Some(2)),
    },
    // The empty script.
    Case {
        words: "steps",
        read: (EMIT, ""),
        written: ("", "fractal 1\noutput -\nend open\n"),
        left: (0, "open", 0, Some(0)),
    },
    // A store to the stack is a plain instruction in version 2, of which the taps note nothing, and traps in version 1.
    Case {
        words: "steps --tiles 1",
        read: (STACKED, "dispatch 0\nstep 0 0\nstep 0 0\ncommit\n"),
        written: (
            "",
            "ok 0\nok 0\nok 0\nok 0\nfractal 1\n1 0.0 1 0\noutput 41\nend normal\n",
        ),
        left: (0, "normal", 1, Some(4)),
    },
    Case {
        words: "steps --tiles 1",
        read: (STORE, "dispatch 0\nstep 0 0\nadvance\n"),
        written: (
            "",
            "ok 0\nok 0\nended 0\nfractal 1\noutput -\nend trap 7 00010000 0.0\n",
        ),
        left: (3, "trap", 0, Some(2)),
    },
    Case {
        words: "trace --tiles 1",
        read: (STACKED, "dispatch 0\nstep 0 0\nstep 0 0\ncommit\n"),
        written: (
            "",
            "trace 1\ntap 0 20\n1\n0\n0\n0\n0\n3\n0\n0\n0\n0\n3\n0\n0\n0\n0\n6\n0\n0\n0\n1\ntap 1 17\n0\n0\n0\n0\n0\n\
        0\n0\n0\n0\n0\n0\n0\n0\n0\n0\n0\n0\nend trace\n",
        ),
        left: (0, "normal", 1, Some(4)),
    },
];

#[test]
fn schedules_are_told(rt: HostRuntime) -> Result<(), Fail> {
    each_holds(&rt, &SCHEDULES)
}
