//! Why a run ends before its driver does, and how a text is printed.

ghost use Rattle.watch_play.specs.Telling.{TellsText};

use sim_io::{Sink, write_all};

/// Why a run ends before its driver does.
#[derive(Clone, Copy, Debug, PartialEq, Eq)]
pub enum StoryStop {
    /// Out of memory. Whole lines were printed, at most one log entry too few, or none at all before the first act.
    Memory,
    /// The sink failed.
    Sink,
}

/// Hands a text to the sink.
pub fn tell_text<K: Sink>(sink: &mut K, text: &[u8]) -> Result<(), StoryStop>
    ensures { TellsText text.now (K.state sink.old) (K.state sink.new) result }
{
    match write_all(sink, text) {
        Ok(()) => Ok(()),
        Err(_) => Err(StoryStop::Sink),
    }
}
