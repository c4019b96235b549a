//! The whole program but its `main`.

ghost use Rattle.std.specs.Prelude.{[], map};
ghost use Rattle.program_call.specs.Call.{call_on, input_of};
ghost use Rattle.program_call.specs.Program.{Answers};
ghost use Rattle.fractal_watch.specs.Program.{program};

use crate::faults::{tell_fault, tell_script_fault};
use crate::finding::{Finding, find};
use crate::watching::watch_image;
use place_policy::Placer;
use program_call::Outcome;
use sim_io::{Sink, Source};
use std::alloc::Global;
use std::marker::Brand;

/// Does what the words ask for, on the bytes of the source, and writes the result to the sink.
///
/// The words are those after the program's name: `memory`, `views K` or neither, a mode, and the options of
/// `fractal_sim`. Printed are the head, the tasks of the image where they were placed, each act that is requested, the
/// view after each K of these, and how the run ended. The line of an act has its reply and its effect, by the machine
/// before and after it. With `memory` only the data memory that the run leaves is written, and it isn't copied.
///
/// The outcome holds nothing, or the run of the serial machine from the image that was read, which the events left. The
/// status says what was found. Where the sink failed it took a front of the text, and the run stopped there; where
/// memory ran out it took nothing, or whole lines, of all moments or of all but the last, and no end. Where the words
/// are refused the source is left alone; else at most 67,108,864 of its bytes are taken, or one more where it has more
/// than that.
pub fn top<S: Source, K: Sink>(
    alloc: Global,
    words: &[&str],
    source: &mut S,
    sink: &mut K,
    placers: Vec<Box<dyn Placer + Send>>,
) -> Outcome
    ensures answers { let serving = map ⟦<Box<dyn Placer + Send> as Placer>⟧.policy placers.items in
        let input = input_of words.now serving [] (S.state source.old) (S.state source.new) in
        Answers (program Brand) (call_on input (K.state sink.old) (K.state sink.new)) result }
{
    match find(alloc, words, source) {
        Ok(Finding::NoScript(line)) => tell_script_fault(alloc, sink, line),
        Ok(Finding::Ready(asking, image, script)) => {
            watch_image::<Brand, _, K>(alloc, sink, &image, &asking, script, placers)
        }
        Err(fault) => tell_fault(alloc, sink, fault),
    }
}
