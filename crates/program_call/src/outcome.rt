//! What a call of a program leaves.

ghost use Rattle.std.specs.Prelude.{◌≡◌};
ghost use Rattle.program_call.specs.Outcomes.{IsEmpty};

use crate::serial_machine::{Bytes, End, Journal};
use std::alloc::Global;

/// What the program answers: its exit status, and the run that it made or accepted.
#[derive(Drop)]
pub struct Outcome {
    /// The exit status.
    pub status: u8,
    /// The journal of the run; empty if there is none.
    pub journal: Journal,
    /// The data memory after the run; empty if there is none.
    pub memory: Bytes,
    /// The bytes that the run emitted; empty if there is none.
    pub output: Bytes,
    /// The end of the run, or of the report that was accepted, or the state of the run after its acts; None if there is
    /// none of these, if memory ran out, and if the sink failed in a call of `fractal_watch`.
    pub end: Option<End>,
    /// How many events made the run, up to 2^64 - 1; None where no image was run, and where workers ran it.
    pub steps: Option<u64>,
}

impl Outcome {
    /// That of a call which made no run.
    pub fn empty(alloc: Global, status: u8) -> Self
        ensures status { result.status ≡ status }
        ensures empty { IsEmpty result }
    {
        Outcome {
            status,
            journal: Journal::new(alloc),
            memory: Bytes::new(alloc),
            output: Bytes::new(alloc),
            end: None,
            steps: None,
        }
    }
}
