//! What the taps note.

ghost use Rattle.std.specs.Prelude.{◌≡◌};
ghost use Rattle.event_prelude.specs.event_def.Trace.{record_of};

use crate::spec_state::State;
use rv_core::Naming;
use trace_tap::{Deed, Record};

/// The record of a deed in a tile that aborted `aborted` tasks and left this state.
pub(crate) fn record_of<N: Naming>(
    state: &State<N>,
    deed: Deed,
    tile: u32,
    line: Option<u32>,
    aborted: u32,
) -> Record
    ensures { result ≡ record_of deed tile line aborted state.now.view }
{
    Record {
        deed,
        tile,
        line,
        aborted,
        commits: state.commit_count(),
    }
}
