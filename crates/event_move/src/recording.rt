//! What taps note.

ghost use Rattle.std.specs.Prelude.{◌≡◌, None};
ghost use Rattle.event_prelude.specs.event_def.Trace.{record_of};

use crate::spec_state::State;
use rv_core::Naming;
use trace_tap::{Deed, Record};

/// The record of a deed of a tile, which aborted `aborted` tasks and left this state.
pub(crate) fn record_of<N: Naming>(state: &State<N>, deed: Deed, tile: u32, aborted: u32) -> Record
    ensures { result ≡ record_of deed tile None aborted state.now.view }
{
    Record {
        deed,
        tile,
        line: None,
        aborted,
        commits: state.commit_count(),
    }
}
