//! The whole program but its `main`.

ghost use Rattle.std.specs.Prelude.{map};
ghost use Rattle.program_call.specs.Call.{call_on, input_of};
ghost use Rattle.fractal_sim.specs.Program.{AnswersAndCounts};

use crate::deciding::find;
use crate::telling::{tell, tell_fault};
use crate::tile_worker::Gate;
use place_policy::Placer;
use program_call::Outcome;
use sim_io::{Sink, Source};
use std::alloc::Global;
use std::sync::Wait;
use std::thread::Threads;
use trace_tap::Tap;

/// Does what the arguments request, on the bytes of the source, and writes the result to the sink.
///
/// The arguments are those after the program's name. A run is made by the machine of the settings that they choose:
/// without workers one event for its least task after another, with workers by so many host threads, each of which
/// passes `Gate` outside the lock before it uses a leg. A script is played act by act. The first of the placers picks
/// tiles for a phase of commits, then the next one does, and each tap notes each event. If the outcome has a count of
/// events, they lead from the opening to the run that it holds. If it has no count it is empty, or its run was made by
/// workers or is that of a report.
///
/// The outcome holds nothing, or a run of the serial machine from the image that was read or generated: its journal,
/// the memory and the output that it leads to, and its end. The run meets the laws of runs. The status is that of what
/// was found, and the sink took its text and no other byte; if the sink failed it took a prefix of that text. For a run
/// that is to be saved and meets its commit limit the text is the saved image, or why there is none; if memory runs out
/// for that, the end is None. If the arguments are invalid or request a generated image the source is not read; else at
/// most 67,108,864 of its bytes are taken, or one more if it has more than that.
pub fn top<R: Threads + Wait + Sync, S: Source, K: Sink, G: Gate + Sync>(
    rt: &R,
    alloc: Global,
    words: &[&str],
    source: &mut S,
    sink: &mut K,
    gate: &G,
    placers: Vec<Box<dyn Placer + Send>>,
    taps: Vec<Box<dyn Tap + Send>>,
) -> Outcome
    ensures answers { let serving = map ⟦<Box<dyn Placer + Send> as Placer>⟧.policy placers.items in
        let noting = map ⟦<Box<dyn Tap + Send> as Tap>⟧.notes taps.items in
        let input = input_of words.now serving noting (S.state source.old) (S.state source.new) in
        AnswersAndCounts (call_on input (K.state sink.old) (K.state sink.new)) result }
{
    match find(rt, alloc, words, source, gate, placers, taps) {
        Ok(found) => tell(alloc, sink, found),
        Err(fault) => tell_fault(alloc, sink, fault),
    }
}
