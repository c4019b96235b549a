//! Worked reports, and in how many pieces a report goes out, by report_text.

ghost use Rattle.std.specs.Prelude.{◌<◌, length};

use crate::serial_machine::TurnFault;
use guest_image::{Image, read_image};
use report_text::{
    JournalFault, Report, Verdict, Window, WindowWord, check, read_journal,
    verdicts_agree_on_the_line, write_body, write_report, written_reports_read_back,
};
use run_journal::{Bytes, Closed, End, Entry, Journal};
use sim_io::{Failed, MemSink};
use std::alloc::{AllocError, Global};
use std::test::Fail;
use task_desc::Name;

/// One task that emits the byte 0x41. The words are those of an image, little-endian.
static EMITTING: [u32; 18] = [
    0x4341_5246,
    0x0001_0001,
    5,
    0,
    0,
    0,
    0,
    1, // header
    0x0410_0513,
    0x0050_0893,
    0x0000_0073,
    0x0000_0893,
    0x0000_0073, // text
    0x0001_0000,
    0,
    0,
    0,
    0, // task
];

/// The task of `EMITTING`, with 8 bytes of data that are the window.
static WINDOWED: [u32; 18] = [
    0x4341_5246,
    0x0001_0001,
    5,
    0,
    8,
    0,
    2,
    1, // header
    0x0410_0513,
    0x0050_0893,
    0x0000_0073,
    0x0000_0893,
    0x0000_0073, // text
    0x0001_0000,
    0,
    0,
    0,
    0, // task
];

/// Two tasks at timestamp 5: the first makes an ordered subdomain with 3 tasks, the second makes none.
static NESTING: [u32; 31] = [
    0x4341_5246,
    0x0001_0001,
    13,
    0,
    0,
    0,
    0,
    2, // header
    0x0005_0493,
    0x0204_8463,
    0x0010_0513,
    0x0040_0893,
    0x0000_0073,
    0x0020_0893,
    0x0001_0537,
    0x0004_8593,
    0x0000_0073,
    0xFFF4_8493,
    0xFE04_9AE3,
    0x0000_0893,
    0x0000_0073, // text
    0x0001_0000,
    5,
    3,
    0,
    0, // task
    0x0001_0000,
    5,
    0,
    0,
    0, // task
];

/// The result of reading a text.
#[derive(Clone, Copy, PartialEq)]
enum Told {
    /// It is the report of a run.
    Yes,
    /// This line is the first outside the grammar.
    Outside(u32),
    /// This line is the first that is not the run's.
    Illegal(u32),
    /// This line is the first that is not the run's, since its turn is refused.
    NoTurn(u32, TurnFault),
    /// Out of memory.
    Memory,
}

/// A text, and the result of reading it.
type Row = (&'static str, Told);

/// Reports of the task that emits.
static EMITTED: [Row; 16] = [
    ("fractal 1\n1 0.0 1 0\noutput 41\nend normal\n", Told::Yes),
    ("fractal 1\n1 0.0 1 0\noutput 41\nend normal", Told::Yes),
    (
        "fractal 1\n1 0.0 1 0\noutput 41\nend normal\n\n",
        Told::Outside(5),
    ),
    ("fractal 1\n1 0.0 1 0\noutput 41\n", Told::Outside(4)),
    (
        "fractal 1\n1 0.0 1 0\noutput 4G\nend normal\n",
        Told::Outside(3),
    ),
    (
        "fractal 1\n1 0.0 1 0\noutput 4A\nend normal\n",
        Told::Outside(3),
    ),
    (
        "fractal 1\n01 0.0 1 0\noutput 41\nend normal\n",
        Told::Outside(2),
    ),
    ("", Told::Outside(1)),
    (
        "fractal 1\n1 0.0 1 0\noutput 42\nend normal\n",
        Told::Illegal(3),
    ),
    (
        "fractal 1\n1 0.0 1 1\noutput 41\nend normal\n",
        Told::Illegal(2),
    ),
    (
        "fractal 1\n1 0.1 1 0\noutput 41\nend normal\n",
        Told::NoTurn(2, TurnFault::NotPending),
    ),
    (
        "fractal 1\n1 0.0 1 0\noutput 41\nend limit\n",
        Told::Illegal(4),
    ),
    (
        "fractal 1\n1 0.0 1 0\noutput 41\nwindow 10000000 00000000\nend normal\n",
        Told::Illegal(4),
    ),
    ("fractal 1\noutput -\nend open\n", Told::Yes),
    (
        "fractal 1\n1 0.0 16 0\noutput 41\nend normal\n",
        Told::Illegal(2),
    ),
    (
        "fractal 1\n1 0.0 17 0\noutput 41\nend normal\n",
        Told::Outside(2),
    ),
];

/// Reports with a window.
static WINDOWS: [Row; 3] = [
    (
        "fractal 1\n1 0.0 1 0\noutput 41\nwindow 10000000 00000000\nwindow 10000004 00000000\nend normal\n",
        Told::Yes,
    ),
    (
        "fractal 1\n1 0.0 1 0\noutput 41\nwindow 10000000 00000000\nend normal\n",
        Told::Illegal(5),
    ),
    (
        "fractal 1\n1 0.0 1 0\noutput 41\nwindow 10000000 00000000\nwindow 10000004 00000001\nend normal\n",
        Told::Illegal(5),
    ),
];

/// Reports with subdomains.
static NESTED: [Row; 3] = [
    (
        "fractal 1\n1 0.1 1 5\n2 0.0 1 5\n3 2.2 2 1\n4 2.1 2 2\n5 2.0 2 3\noutput -\nend normal\n",
        Told::Yes,
    ),
    (
        "fractal 1\n1 0.0 1 5\n2 1.2 2 1\n3 1.1 2 2\n4 1.0 2 3\n5 0.1 1 5\noutput -\nend normal\n",
        Told::Yes,
    ),
    (
        "fractal 1\n1 0.0 1 5\n2 1.2 2 1\n3 0.1 1 5\n4 1.1 2 2\n5 1.0 2 3\noutput -\nend normal\n",
        Told::NoTurn(4, TurnFault::NotTop { depth: 2 }),
    ),
];

fn image_of(alloc: Global, words: &[u32]) -> Result<Image, Fail> {
    let mut bytes = Vec::new(alloc);
    for word in words {
        bytes.extend_from_slice(&word.to_le_bytes())?;
    }
    let (image, _) = read_image(alloc, &bytes)?;
    Ok(image)
}

fn told_of_text(alloc: Global, image: &Image, text: &[u8]) -> Told
    requires { length text.now < 1000 }
{
    match read_journal(alloc, text) {
        Ok(report) => told_of_report(alloc, image, &report),
        Err(JournalFault::Line { line }) => Told::Outside(line),
        Err(JournalFault::Memory) => Told::Memory,
    }
}

fn told_of_report(alloc: Global, image: &Image, report: &Report) -> Told {
    match check(alloc, image, 1_000_000, 65_536, report) {
        Verdict::Yes => Told::Yes,
        Verdict::Illegal { line, why: None } => Told::Illegal(line),
        Verdict::Illegal {
            line,
            why: Some(fault),
        } => Told::NoTurn(line, fault),
        Verdict::Memory => Told::Memory,
    }
}

#[test]
fn the_first_wrong_line_is_told(rt: HostRuntime) -> Result<(), Fail> {
    let image = image_of(rt.alloc(), &EMITTING)?;
    for (text, want) in &EMITTED {
        assert!(rt; text.len() < 1000);
        assert!(rt;
            told_of_text(rt.alloc(), &image, text.as_bytes()) == *want,
            "{text:?}"
        );
    }
    Ok(())
}

#[test]
fn a_window_is_checked_word_by_word(rt: HostRuntime) -> Result<(), Fail> {
    let image = image_of(rt.alloc(), &WINDOWED)?;
    for (text, want) in &WINDOWS {
        assert!(rt; text.len() < 1000);
        assert!(rt;
            told_of_text(rt.alloc(), &image, text.as_bytes()) == *want,
            "{text:?}"
        );
    }
    Ok(())
}

#[test]
fn subdomains_take_their_turns_before_the_next_task(rt: HostRuntime) -> Result<(), Fail> {
    let image = image_of(rt.alloc(), &NESTING)?;
    for (text, want) in &NESTED {
        assert!(rt; text.len() < 1000);
        assert!(rt;
            told_of_text(rt.alloc(), &image, text.as_bytes()) == *want,
            "{text:?}"
        );
    }
    Ok(())
}

/// A run of one task, which left these bytes in the window.
fn closed_run(alloc: Global) -> Result<Closed, AllocError> {
    let mut journal = Journal::new(alloc);
    journal.push(ENTRY)?;
    Ok(Closed {
        journal,
        memory: Bytes::from_vec(MEMORY.to_vec(alloc)?),
        output: Bytes::from_vec(b"PC".to_vec(alloc)?),
        steps: 3,
    })
}

const ENTRY: Entry = Entry {
    name: Name {
        creator: 0,
        index: 4_294_967_295,
    },
    depth: 1,
    ts: 10,
};

const MEMORY: [u8; 8] = [7, 0, 0, 0, 8, 0, 0, 0xff];

const TRAP: End = End::Trap {
    name: Name {
        creator: 1,
        index: 0,
    },
    cause: 10,
    pc: 0x0001_0020,
};

/// That run with its image.
fn windowed_run(alloc: Global) -> Result<(Image, Closed), Fail> {
    let image = image_of(alloc, &WINDOWED)?;
    Ok((image, closed_run(alloc)?))
}

/// A sink that takes a whole report, and fails at this call, counted from 1.
fn sink_that_fails(alloc: Global, call: u32) -> Result<MemSink, AllocError> {
    let fail_at = [call].to_vec(alloc)?;
    MemSink::new(alloc, 1000, 1000, fail_at)
}

#[test]
fn a_report_goes_out_in_lines(rt: HostRuntime) -> Result<(), Fail> {
    let (image, closed) = windowed_run(rt.alloc())?;
    let mut sink = sink_that_fails(rt.alloc(), 100)?;
    assert!(rt; image.data_size() == 8 && closed.memory.as_slice().len() == 8);
    assert!(rt; write_report(&mut sink, &image, &closed, &TRAP) == Ok(()));
    assert_eq!(rt;
        sink.bytes(),
        b"fractal 1\n1 0.4294967295 1 10\noutput 5043\nwindow 10000000 00000007\n\
            window 10000004 ff000008\nend trap 10 00010020 1.0\n"
            .as_slice()
    );
    Ok(())
}

#[test]
fn lines_before_a_failed_call_went_out(rt: HostRuntime) -> Result<(), Fail> {
    let (image, closed) = windowed_run(rt.alloc())?;
    let mut sink = sink_that_fails(rt.alloc(), 3)?;
    assert!(rt; image.data_size() == 8 && closed.memory.as_slice().len() == 8);
    assert!(rt; write_report(&mut sink, &image, &closed, &TRAP) == Err(Failed));
    assert_eq!(rt;
        sink.bytes(),
        b"fractal 1\n1 0.4294967295 1 10\n".as_slice()
    );
    Ok(())
}

#[test]
fn an_output_goes_out_in_pieces(rt: HostRuntime) -> Result<(), Fail> {
    let image = image_of(rt.alloc(), &WINDOWED)?;
    assert!(rt; image.data_size() == 8);
    // `output `, 512 digits and 88 digits; the newline is the fourth piece.
    let mut sink = sink_that_fails(rt.alloc(), 4)?;
    assert!(rt; write_body(&mut sink, &image, &MEMORY, &[0x5a; 300]) == Err(Failed));
    assert_eq!(rt; sink.bytes().len(), 607);
    Ok(())
}

#[test]
fn a_window_grows(rt: HostRuntime) -> Result<(), Fail> {
    let word = WindowWord {
        addr: 0x1000_0000,
        value: 7,
    };
    let mut window = Window::new(rt.alloc());
    window.push(word)?;
    assert_eq!(rt; window.as_slice(), [word].as_slice());
    written_reports_read_back();
    verdicts_agree_on_the_line();
    Ok(())
}
