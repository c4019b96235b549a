//! The run of an image, turn by turn.

ghost use Rattle.std.specs.Prelude.{◌≡◌, ◌≢◌, ◌≤◌, ◌<◌, [], length, IfOk, IfSome, Some};
ghost use Rattle.serial_machine.specs.Run.{IsEnd, IsRun, opening};
ghost use Rattle.serial_machine.specs.WholeRun.{TurnAdvances, IsLimitEnd, IsRunOf, IsStopOf, IsTrapOrMemory};

use crate::fault::TurnFault;
use crate::limits::MAX_COMMITS;
use crate::serial::Serial;
use guest_image::Image;
use run_journal::{Bytes, End, Entry, Journal};
use std::alloc::{AllocError, Global};
use task_desc::Name;

/// A run that is over, or that stopped as memory ran out.
#[derive(Drop)]
pub struct SerialRun {
    /// The tasks that took their turns.
    pub journal: Journal,
    /// The data memory after the last turn.
    pub memory: Bytes,
    /// The bytes that they emitted.
    pub output: Bytes,
    /// How the run ended; None where memory ran out.
    pub end: Option<End>,
}

/// The result of a turn.
#[derive(Clone, Copy, Debug)]
pub(crate) enum TurnAnswer {
    /// A task took its turn.
    Taken,
    /// No task takes a turn any more.
    Over(End),
    /// Out of memory.
    Wanting,
}

/// Runs an image for at most `commits` turns, each task with this budget of instructions. Of the tasks that may
/// take the next turn it takes the first of the innermost bag that isn't empty. Where memory runs out on the way
/// the run has no end.
pub fn run_image(
    alloc: Global,
    image: &Image,
    commits: u32,
    budget: u32,
) -> Result<SerialRun, AllocError>
    requires { commits ≤ MAX_COMMITS }
    ensures run { IfOk result (IsRunOf image.now commits budget) }
    ensures over { IfOk result (λ run. run.end ≢ Some End.Unfinished) }
{
    let mut serial = Serial::begin(alloc, image, budget)?;
    let mut journal = Vec::new(alloc);
    let end = take_turns(image, commits, &mut serial, &mut journal);
    let (memory, output) = serial.into_parts();
    Ok(SerialRun {
        journal: Journal::from_vec(journal),
        memory,
        output,
        end,
    })
}

fn take_turns(
    image: &Image,
    commits: u32,
    serial: &mut Serial,
    journal: &mut Vec<Entry>,
) -> Option<End>
    requires opening { serial.old.state ≡ opening image.now }
    requires empty { journal.old.items ≡ [] }
    requires commits { commits ≤ MAX_COMMITS }
    ensures run { IsRun image.now serial.old.budget journal.new.items serial.new.state }
    ensures within { length journal.new.items ≤ commits }
    ensures end { IfSome result (IsEnd image.now serial.old.budget commits journal.new.items serial.new.state) }
    ensures over { result ≢ Some End.Unfinished }
{
    for _ in 0..commits {
        match take_one(image, serial, journal) {
            TurnAnswer::Taken => {}
            TurnAnswer::Over(end) => return Some(end),
            TurnAnswer::Wanting => return None,
        }
    }
    Some(end_at_limit(serial))
}

/// One turn; where none is taken the machine and the journal are as they were.
fn take_one(image: &Image, serial: &mut Serial, journal: &mut Vec<Entry>) -> TurnAnswer
    requires { serial.old.state.count < MAX_COMMITS }
    ensures { TurnAdvances image.now serial.old serial.new journal.old.items journal.new.items result }
{
    let Some(name) = serial.next() else {
        return TurnAnswer::Over(End::Normal);
    };
    if journal.reserve(1).is_err() {
        return TurnAnswer::Wanting;
    }
    match serial.turn(image, name) {
        Ok(entry) => {
            // Its memory was taken before.
            let _ = journal.push(entry);
            TurnAnswer::Taken
        }
        Err(fault) => stopped_by(name, fault),
    }
}

/// The result of a trap, or of running out of memory.
fn stopped_by(name: Name, fault: TurnFault) -> TurnAnswer
    requires { IsTrapOrMemory fault }
    ensures { IsStopOf name fault result }
{
    match fault {
        TurnFault::Trap { cause, pc } => TurnAnswer::Over(End::Trap { name, cause, pc }),
        TurnFault::Memory => TurnAnswer::Wanting,
        TurnFault::NotPending | TurnFault::NotTop { .. } | TurnFault::NotLeast { .. } => {
            unreachable!()
        }
    }
}

/// How a run ends that has as many turns as it may have.
fn end_at_limit(serial: &Serial) -> End
    ensures { IsLimitEnd serial.now.state result }
{
    if serial.pending() {
        End::Limit
    } else {
        End::Normal
    }
}
