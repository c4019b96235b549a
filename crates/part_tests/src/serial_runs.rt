//! Turns of the serial machine, and whole runs in both versions of the image.

ghost use Rattle.std.specs.Prelude.{◌≤◌};

use crate::image_bytes::{EMITTING, TASK, image_with};
use crate::sending::is_sent;
use crate::serial_machine::{Bytes, End, Journal, MAX_COMMITS, Serial, SerialRun, run_image};
use guest_image::Image;
use std::alloc::{AllocError, Global};
use std::process::Abort;
use std::test::Fail;
use task_desc::Name;

/// An image with one task, which emits the byte 0x41 and ends.
fn emitting(alloc: Global) -> Result<Image, Fail> {
    image_with(alloc, &EMITTING, 4, &[0x0001_0000, 7, 0, 0, 0])
}

#[test]
fn a_task_waits_for_its_turn(rt: HostRuntime) -> Result<(), Fail> {
    let image = emitting(rt.alloc())?;
    let serial = Serial::begin(rt.alloc(), &image, 5)?;
    assert!(rt; serial.pending() && serial.count() == 0);
    Ok(())
}

/// The task that may take the next turn takes it, and is added to the journal.
fn take_turn(image: &Image, serial: &mut Serial, journal: &mut Journal) -> Result<(), AllocError> {
    if let Some(name) = serial.next() {
        if serial.count() < MAX_COMMITS {
            if let Ok(entry) = serial.turn(image, name) {
                journal.push(entry)?;
            }
        }
    }
    Ok(())
}

#[test]
fn a_task_takes_its_turn(rt: HostRuntime) -> Result<(), Fail> {
    let image = emitting(rt.alloc())?;
    let mut serial = Serial::begin(rt.alloc(), &image, 5)?;
    let mut journal = Journal::new(rt.alloc());
    take_turn(&image, &mut serial, &mut journal)?;
    is_sent(&journal);
    assert_eq!(rt; journal.as_slice().len(), 1);
    assert_eq!(rt; serial.count(), 1);
    assert!(rt; serial.next().is_none());
    Ok(())
}

/// The machine after the turn of the task that emits.
fn after_turn(alloc: Global) -> Result<Serial, Fail> {
    let image = emitting(alloc)?;
    let mut serial = Serial::begin(alloc, &image, 5)?;
    let mut journal = Journal::new(alloc);
    take_turn(&image, &mut serial, &mut journal)?;
    Ok(serial)
}

#[test]
fn a_turn_leaves_its_output(rt: HostRuntime) -> Result<(), Fail> {
    let serial = after_turn(rt.alloc())?;
    assert_eq!(rt; serial.output(), b"A".as_slice());
    assert_eq!(rt; serial.memory(), [0u8; 4].as_slice());
    Ok(())
}

#[test]
fn the_parts_of_a_machine_are_lists(rt: HostRuntime) -> Result<(), Fail> {
    let (memory, mut output) = after_turn(rt.alloc())?.into_parts();
    output.push(66)?;
    assert_eq!(rt; output.as_slice(), b"AB".as_slice());
    is_sent(&memory);
    let again = Bytes::from_vec(Vec::new(rt.alloc()));
    assert_eq!(rt; again.as_slice().len(), 0);
    Ok(())
}

/// sw x10,-4(x2); lw x10,-4(x2); addi x17,x0,5; ecall; addi x17,x0,0; ecall
const ON_STACK: [u32; 6] = [
    0xfea1_2e23,
    0xffc1_2503,
    0x0050_0893,
    0x0000_0073,
    0x0000_0893,
    0x0000_0073,
];

/// lbu x10,-1(x2); addi x17,x0,5; ecall; addi x10,x0,65; sb x10,-1(x2); addi x17,x0,0; ecall
const FINDS_ZERO: [u32; 7] = [
    0xfff1_4503,
    0x0050_0893,
    0x0000_0073,
    0x0410_0513,
    0xfea1_0fa3,
    0x0000_0893,
    0x0000_0073,
];

/// A task that enqueues as many children as its first argument says, each of which ends at once.
const CREATOR: [u32; 10] = [
    0x0005_0493,
    0x0001_0537,
    0x0205_0513,
    0x0010_0893,
    0x0004_8593,
    0x0000_0073,
    0xfff4_8493,
    0xfe04_9ae3,
    0x0000_0893,
    0x0000_0073,
];

/// Each task makes a subdomain, and in it a task like itself.
const DEEPER: [u32; 9] = [
    0x0010_0513,
    0x0040_0893,
    0x0000_0073,
    0x0020_0893,
    0x0001_0537,
    0x0000_0593,
    0x0000_0073,
    0x0000_0893,
    0x0000_0073,
];

/// A program and its tasks, in a version, with the limit of commits and the budget of a task; how many tasks take their
/// turns, what they emit, and how the run ends.
struct Run {
    what: &'static str,
    text: &'static [u32],
    tasks: &'static [u32],
    version: u16,
    commits: u32,
    budget: u32,
    turns: usize,
    output: &'static [u8],
    end: End,
}

static RUNS: [Run; 14] = [
    Run {
        what: "a byte is emitted",
        text: &EMITTING,
        tasks: &[0x0001_0000, 7, 0, 0, 0],
        version: 1,
        commits: MAX_COMMITS,
        budget: 5,
        turns: 1,
        output: b"A",
        end: End::Normal,
    },
    Run {
        what: "no task may commit",
        text: &EMITTING,
        tasks: &[0x0001_0000, 7, 0, 0, 0],
        version: 1,
        commits: 0,
        budget: 5,
        turns: 0,
        output: b"",
        end: End::Limit,
    },
    Run {
        what: "the budget is used up",
        text: &EMITTING,
        tasks: &[0x0001_0000, 7, 0, 0, 0],
        version: 1,
        commits: MAX_COMMITS,
        budget: 4,
        turns: 0,
        output: b"",
        end: End::Trap {
            name: Name {
                creator: 0,
                index: 0,
            },
            cause: 17,
            pc: 0x0001_0010,
        },
    },
    Run {
        what: "a byte is emitted in version 2",
        text: &EMITTING,
        tasks: &[0x0001_0000, 7, 0, 0, 0],
        version: 2,
        commits: MAX_COMMITS,
        budget: 5,
        turns: 1,
        output: b"A",
        end: End::Normal,
    },
    Run {
        what: "no stack in version 1",
        text: &ON_STACK,
        tasks: &[0x0001_0000, 0, 65, 0, 0],
        version: 1,
        commits: MAX_COMMITS,
        budget: 65_536,
        turns: 0,
        output: b"",
        end: End::Trap {
            name: Name {
                creator: 0,
                index: 0,
            },
            cause: 7,
            pc: 0x0001_0000,
        },
    },
    Run {
        what: "a stack in version 2",
        text: &ON_STACK,
        tasks: &[0x0001_0000, 0, 65, 0, 0],
        version: 2,
        commits: MAX_COMMITS,
        budget: 65_536,
        turns: 1,
        output: b"A",
        end: End::Normal,
    },
    Run {
        what: "each task begins with zeros",
        text: &FINDS_ZERO,
        tasks: &[0x0001_0000, 0, 0, 0, 0, 0x0001_0000, 0, 0, 0, 0],
        version: 2,
        commits: MAX_COMMITS,
        budget: 65_536,
        turns: 2,
        output: b"\x00\x00",
        end: End::Normal,
    },
    Run {
        what: "64 children in version 1",
        text: &CREATOR,
        tasks: &[0x0001_0000, 0, 64, 0, 0],
        version: 1,
        commits: MAX_COMMITS,
        budget: 65_536,
        turns: 65,
        output: b"",
        end: End::Normal,
    },
    Run {
        what: "65 children in version 1",
        text: &CREATOR,
        tasks: &[0x0001_0000, 0, 65, 0, 0],
        version: 1,
        commits: MAX_COMMITS,
        budget: 65_536,
        turns: 0,
        output: b"",
        end: End::Trap {
            name: Name {
                creator: 0,
                index: 0,
            },
            cause: 15,
            pc: 0x0001_0014,
        },
    },
    Run {
        what: "65 children in version 2",
        text: &CREATOR,
        tasks: &[0x0001_0000, 0, 65, 0, 0],
        version: 2,
        commits: MAX_COMMITS,
        budget: 65_536,
        turns: 66,
        output: b"",
        end: End::Normal,
    },
    Run {
        what: "256 children in version 2",
        text: &CREATOR,
        tasks: &[0x0001_0000, 0, 256, 0, 0],
        version: 2,
        commits: MAX_COMMITS,
        budget: 65_536,
        turns: 257,
        output: b"",
        end: End::Normal,
    },
    Run {
        what: "257 children in version 2",
        text: &CREATOR,
        tasks: &[0x0001_0000, 0, 257, 0, 0],
        version: 2,
        commits: MAX_COMMITS,
        budget: 65_536,
        turns: 0,
        output: b"",
        end: End::Trap {
            name: Name {
                creator: 0,
                index: 0,
            },
            cause: 15,
            pc: 0x0001_0014,
        },
    },
    Run {
        what: "8 levels in version 1",
        text: &DEEPER,
        tasks: &TASK,
        version: 1,
        commits: MAX_COMMITS,
        budget: 65_536,
        turns: 7,
        output: b"",
        end: End::Trap {
            name: Name {
                creator: 7,
                index: 0,
            },
            cause: 14,
            pc: 0x0001_0008,
        },
    },
    Run {
        what: "16 levels in version 2",
        text: &DEEPER,
        tasks: &TASK,
        version: 2,
        commits: MAX_COMMITS,
        budget: 65_536,
        turns: 15,
        output: b"",
        end: End::Trap {
            name: Name {
                creator: 15,
                index: 0,
            },
            cause: 14,
            pc: 0x0001_0008,
        },
    },
];

fn in_version(image: Image, version: u16) -> Image {
    if version == 2 { image.upgrade() } else { image }
}

fn made_by(alloc: Global, run: &Run) -> Result<SerialRun, Fail>
    requires { run.now.commits ≤ MAX_COMMITS }
{
    let image = image_with(alloc, run.text, 4, run.tasks)?;
    let image = in_version(image, run.version);
    let made = run_image(alloc, &image, run.commits, run.budget)?;
    Ok(made)
}

fn ends_by(made: &SerialRun, end: &End) -> bool {
    match made.end {
        Some(found) => found == *end,
        None => false,
    }
}

fn assert_run(rt: &impl Abort, made: &SerialRun, run: &Run) {
    assert!(rt; ends_by(made, &run.end), "{}", run.what);
    assert_eq!(rt; made.journal.as_slice().len(), run.turns, "{}", run.what);
    assert_eq!(rt; made.output.as_slice(), run.output, "{}", run.what);
}

#[test]
fn a_run_goes_to_its_end(rt: HostRuntime) -> Result<(), Fail> {
    for run in &RUNS {
        assert!(rt; run.commits <= MAX_COMMITS);
        let made = made_by(rt.alloc(), run)?;
        assert_run(&rt, &made, run);
    }
    Ok(())
}
