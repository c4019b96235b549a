//! Scripts that are read, and worked schedules that are played.

ghost use Rattle.std.specs.Prelude.{◌≡◌};
ghost use Rattle.machine_run.specs.spec_state.Settings.{IsValid};

use crate::conflict_book::Reply;
use crate::machines::{ENDERS, FOUR_CORES, Hinted, TWO_TILES, image_of, opening_book};
use crate::step_script::{
    Act, Said, ScriptFault, Word, play, read_script, written_scripts_read_back,
};
use guest_image::Image;
use rv_core::Naming;
use sample_image::{FIRST_MAKER, MAKER_TEXT, Program, READER_AND_WRITER};
use spec_state::Settings;
use std::alloc::Global;
use std::marker::Brand;
use std::process::Abort;
use std::test::Fail;

/// Each act, on a machine of two tiles of one core.
static ACTS: [Act; 9] = [
    Act::Dispatch(0),
    Act::Step(0, 0),
    Act::Take(1, 0),
    Act::Give(1, 0),
    Act::Abort(0),
    Act::Commit,
    Act::Coalesce(0),
    Act::Split(0),
    Act::Advance,
];

/// The lines of these acts.
static LINES: &str =
    "dispatch 0\nstep 0 0\ntake 1 0\ngive 1 0\nabort 0\ncommit\ncoalesce 0\nsplit 0\nadvance\n";

#[test]
fn each_line_is_its_act(rt: HostRuntime) -> Result<(), Fail> {
    assert!(rt; LINES.len() < 1000);
    let acts = read_script(rt.alloc(), LINES.as_bytes(), 2, 1)?;
    assert_eq!(rt; acts.as_slice(), ACTS.as_slice());
    Ok(())
}

/// Texts, and the first line of each that is outside the grammar.
static REFUSED: [(&str, u32); 6] = [
    ("dispatch 0\n\ncommit\n", 2),
    ("step 0 1\n", 1),
    ("dispatch 2\n", 1),
    ("commit\ndispatch 00\n", 2),
    ("step 0  0\n", 1),
    ("commit\ncommit \nstop", 2),
];

/// Whether reading found this line to be the first outside the grammar.
fn is_at(found: Result<Vec<Act>, ScriptFault>, wanted: u32) -> bool {
    match found {
        Err(ScriptFault::Line { line }) => line == wanted,
        _ => false,
    }
}

#[test]
fn the_first_line_outside_the_grammar_is_told(rt: HostRuntime) {
    for (text, line) in &REFUSED {
        assert!(rt; text.len() < 1000);
        let found = read_script(rt.alloc(), text.as_bytes(), 2, 1);
        assert!(rt; is_at(found, *line), "{text:?}");
    }
}

#[test]
fn an_empty_text_has_no_acts(rt: HostRuntime) -> Result<(), Fail> {
    let none = read_script(rt.alloc(), b"", 2, 1)?;
    assert!(rt; none.is_empty());
    written_scripts_read_back();
    Ok(())
}

#[test]
fn the_last_newline_may_be_missing(rt: HostRuntime) -> Result<(), Fail> {
    let one = read_script(rt.alloc(), b"commit", 2, 1)?;
    assert_eq!(rt; one.as_slice(), [Act::Commit].as_slice());
    Ok(())
}

/// One tile of two cores, whose commit queue holds one task.
const ONE_FINISHED: Settings = Settings {
    tiles: 1,
    cores: 2,
    commit_queue: 1,
    ..TWO_TILES
};

/// Two tiles of one core, with task queues of four.
const SHORT_QUEUES: Settings = Settings {
    task_queue: 4,
    ..TWO_TILES
};

/// Two tiles of one core, with lines of 64 bytes.
const LONG_LINES: Settings = Settings {
    line: 64,
    ..TWO_TILES
};

/// A task at timestamp 2 that follows the pointer in the first word and emits what it finds, and a task at
/// timestamp 1 that sets the pointer to the second word.
const FOLLOWER: Program = Program {
    text: &[
        0x1000_02b7,
        0x0002_a303,
        0x0003_2503,
        0x0050_0893,
        0x0000_0073,
        0x0000_0893,
        0x0000_0073,
        0x1000_02b7,
        0x0042_8313,
        0x0062_a023,
        0x0000_0893,
        0x0000_0073,
    ],
    initial: &[0, 0, 0, 0, 0x5a, 0, 0, 0],
    data_size: 8,
    tasks: &[(0x0001_0000, 2), (0x0001_001c, 1)],
};

/// The maker at timestamp 5, and a task at timestamp 1 that ends at once.
const LATE_MAKER: Program = Program {
    text: &MAKER_TEXT,
    initial: &[],
    data_size: 0,
    tasks: &[(0x0001_0000, 5), (0x0001_0020, 1)],
};

/// A task at timestamp 2 that loads the word at offset 16,384, and one at timestamp 1 that stores into the word at
/// offset 0.
const FAR_APART: Program = Program {
    text: &[
        0x1000_42b7,
        0x0002_a303,
        0x0000_0893,
        0x0000_0073,
        0x1000_02b7,
        0x0062_a023,
        0x0000_0893,
        0x0000_0073,
    ],
    initial: &[],
    data_size: 16_388,
    tasks: &[(0x0001_0000, 2), (0x0001_0010, 1)],
};

const OK: Said = Said {
    word: Word::Plain(Reply::Ok),
    aborted: 0,
};

const TAKES_1: Said = Said {
    word: Word::Plain(Reply::Ok),
    aborted: 1,
};

const TAKES_2: Said = Said {
    word: Word::Plain(Reply::Ok),
    aborted: 2,
};

const EMPTY: Said = Said {
    word: Word::Plain(Reply::Empty),
    aborted: 0,
};

const BUSY: Said = Said {
    word: Word::Plain(Reply::Busy),
    aborted: 0,
};

const STALL: Said = Said {
    word: Word::Plain(Reply::Stall),
    aborted: 0,
};

const STALE: Said = Said {
    word: Word::Plain(Reply::Stale),
    aborted: 0,
};

const FIRM: Said = Said {
    word: Word::Plain(Reply::Firm),
    aborted: 0,
};

const ENDED: Said = Said {
    word: Word::Plain(Reply::Ended),
    aborted: 0,
};

const MOVED: Said = Said {
    word: Word::Moved,
    aborted: 0,
};

const COMMITTED: Said = Said {
    word: Word::Committed,
    aborted: 0,
};

/// A script, and the replies to its acts.
struct Row {
    name: &'static str,
    program: Program,
    settings: Settings,
    script: &'static str,
    said: &'static [Said],
}

static ROWS: [Row; 12] = [
    Row {
        name: "a reader with a child, and a writer",
        program: READER_AND_WRITER,
        settings: TWO_TILES,
        script: "dispatch 0\nstep 0 0\nstep 0 0\nstep 0 0\ndispatch 1\nstep 1 0\nstep 1 0\ncommit\n\
            dispatch 0\nstep 0 0\nstep 0 0\nstep 0 0\nstep 0 0\ncommit\ndispatch 0\nstep 0 0\ncommit\n",
        said: &[
            OK, OK, OK, OK, OK, TAKES_2, OK, OK, OK, OK, OK, OK, OK, OK, OK, OK, OK,
        ],
    },
    Row {
        name: "a leg that comes too late",
        program: READER_AND_WRITER,
        settings: TWO_TILES,
        script: "dispatch 0\ntake 0 0\nstep 0 0\nstep 0 0\ngive 0 0\n",
        said: &[OK, OK, OK, OK, STALE],
    },
    Row {
        name: "a leg that is held and handed in once",
        program: READER_AND_WRITER,
        settings: TWO_TILES,
        script: "give 0 0\ntake 0 0\ndispatch 0\ntake 0 0\ngive 1 0\ngive 0 0\ngive 0 0\nstep 0 0\n",
        said: &[STALE, STALE, OK, OK, STALE, OK, STALE, OK],
    },
    Row {
        name: "a run by the least tasks, and what is said at its end",
        program: READER_AND_WRITER,
        settings: TWO_TILES,
        script: "advance\nadvance\nadvance\nadvance\nadvance\nadvance\nadvance\nadvance\nadvance\nadvance\n\
            advance\nadvance\nadvance\nadvance\nstep 0 0\ntake 0 0\ngive 0 0\ncommit\n",
        said: &[
            MOVED, MOVED, MOVED, COMMITTED, MOVED, MOVED, MOVED, MOVED, MOVED, COMMITTED, MOVED,
            MOVED, COMMITTED, ENDED, ENDED, STALE, ENDED, ENDED,
        ],
    },
    Row {
        name: "a pointer that is followed too early",
        program: FOLLOWER,
        settings: TWO_TILES,
        script: "dispatch 0\nstep 0 0\nstep 0 0\nstep 0 0\ncommit\ndispatch 1\nstep 1 0\nstep 1 0\ncommit\n\
            dispatch 0\nstep 0 0\nstep 0 0\nstep 0 0\nstep 0 0\ncommit\n",
        said: &[
            OK, OK, OK, STALE, EMPTY, OK, TAKES_1, OK, OK, OK, OK, OK, OK, OK, OK,
        ],
    },
    Row {
        name: "a commit queue for one task, where the later one ends first",
        program: ENDERS,
        settings: ONE_FINISHED,
        script: "dispatch 0\ndispatch 0\nstep 0 1\nstep 0 0\ncommit\ndispatch 0\nstep 0 0\ncommit\n",
        said: &[OK, OK, OK, TAKES_1, OK, OK, OK, OK],
    },
    Row {
        name: "a commit queue for one task, where the earlier one ends first",
        program: ENDERS,
        settings: ONE_FINISHED,
        script: "dispatch 0\ndispatch 0\nstep 0 0\nstep 0 1\n",
        said: &[OK, OK, OK, STALL],
    },
    Row {
        name: "a leg that stalls is no longer held",
        program: ENDERS,
        settings: ONE_FINISHED,
        script: "dispatch 0\ndispatch 0\ntake 0 1\nstep 0 0\ngive 0 1\ncommit\ngive 0 1\n",
        said: &[OK, OK, OK, OK, STALL, OK, STALE],
    },
    Row {
        name: "an enqueue that stalls",
        program: LATE_MAKER,
        settings: SHORT_QUEUES,
        script: "dispatch 0\nstep 0 0\nstep 0 0\nstep 0 0\nstep 0 0\ndispatch 1\nstep 1 0\ncommit\nstep 0 0\n\
            abort 0\ndispatch 0\ncoalesce 0\ncoalesce 0\nsplit 0\n",
        said: &[
            OK, OK, OK, OK, STALL, OK, OK, OK, OK, FIRM, BUSY, OK, EMPTY, OK,
        ],
    },
    Row {
        name: "four cores and a full queue",
        program: FIRST_MAKER,
        settings: FOUR_CORES,
        script: "dispatch 0\ndispatch 0\ndispatch 0\ndispatch 0\nstep 0 0\nstep 0 0\nsplit 0\n",
        said: &[OK, OK, OK, OK, TAKES_1, OK, STALL],
    },
    Row {
        name: "two lines with one bit",
        program: FAR_APART,
        settings: TWO_TILES,
        script: "dispatch 0\nstep 0 0\ndispatch 1\nstep 1 0\n",
        said: &[OK, OK, OK, TAKES_1],
    },
    Row {
        name: "two lines with two bits",
        program: FAR_APART,
        settings: LONG_LINES,
        script: "dispatch 0\nstep 0 0\ndispatch 1\nstep 1 0\n",
        said: &[OK, OK, OK, OK],
    },
];

/// The replies to the acts of a script that is played on a book.
fn said_of<N: Naming>(
    rt: &impl Abort,
    alloc: Global,
    image: &Image,
    book: &mut Hinted<N>,
    script: &str,
) -> Result<Vec<Said>, Fail>
    requires image { image.now ≡ N.image }
{
    let (tiles, cores) = (book.settings().tiles, book.settings().cores);
    assert!(rt; script.len() < 1000);
    let acts = read_script(alloc, script.as_bytes(), tiles, cores)?;
    Ok(play(alloc, image, book, &acts)?)
}

/// The replies to the acts of a row's script are those of the row.
fn plays_row<N: Naming>(
    rt: &impl Abort,
    alloc: Global,
    image: &Image,
    row: &Row,
) -> Result<(), Fail>
    requires valid { IsValid row.now.settings }
    requires image { image.now ≡ N.image }
    requires budget { row.now.settings.budget ≡ N.budget }
    requires commits { row.now.settings.commits ≡ N.commits }
{
    let mut book = opening_book::<N>(alloc, image, row.settings, Vec::new(alloc))?;
    let said = said_of(rt, alloc, image, &mut book, row.script);
    let _closed = book.close();
    assert_eq!(rt; said?.as_slice(), row.said, "{}", row.name);
    Ok(())
}

#[test]
fn each_schedule_says_what_was_walked(rt: HostRuntime) -> Result<(), Fail> {
    for row in &ROWS {
        let image = image_of(rt.alloc(), &row.program)?;
        assert!(rt; row.settings.valid());
        plays_row::<Brand>(&rt, rt.alloc(), &image, row)?;
    }
    Ok(())
}
