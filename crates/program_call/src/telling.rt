//! Writes the line that says why no run was made.

ghost use Rattle.std.specs.Prelude.{◌≢◌};
ghost use Rattle.program_call.specs.declared.statuses.TheConstants.{SINK_FAULT};
ghost use Rattle.program_call.specs.Outcomes.{TellsLine};

use crate::outcome::Outcome;
use crate::statuses::SINK_FAULT;
use sim_io::{Sink, write_all};
use std::alloc::Global;

/// Writes a line that says why no run was made. The status is 7 if the sink fails. It doesn't allocate.
pub fn tell_line<K: Sink>(alloc: Global, sink: &mut K, status: u8, line: &[u8]) -> Outcome
    requires { status ≢ SINK_FAULT }
    ensures { TellsLine status line.now (K.state sink.old) (K.state sink.new) result }
{
    match write_all(sink, line) {
        Ok(()) => Outcome::empty(alloc, status),
        Err(_) => Outcome::empty(alloc, SINK_FAULT),
    }
}
