//! What is found before anything is printed.

ghost use Rattle.std.specs.Prelude.{◌≡◌, ◌≤◌, ◌<◌, ◌^◌, [], All, Err, IfErr, IfOk, List, length};
ghost use Rattle.place_policy.specs.Policy.{Policy};
ghost use Rattle.watch_play.specs.step_script.Grammar.{IsFaultOf, acts_of};
ghost use Rattle.watch_play.specs.step_script.Ranges.{ActIsInRange};
ghost use Rattle.watch_play.specs.watch_text.declared.head.CourseWord.TheVariants as courses;
ghost use Rattle.program_call.specs.Call.{Input, input_limit, input_of};
ghost use Rattle.program_call.specs.Given.{ReadsImage};
ghost use Rattle.fractal_watch.specs.Finding.{IsFoundOrFault, IsPlayable};
ghost use Rattle.fractal_watch.specs.Given.{front};
ghost use Rattle.fractal_watch.specs.Watched.{HasActs};

use crate::step_script::{Act, ScriptFault, read_script};
use crate::watch_text::CourseWord;
use crate::words::{Asking, read_asking};
use command_line::Refusal;
use guest_image::Image;
use program_call::{FrontFault, Opened, read_input};
use sim_io::Source;
use std::alloc::Global;

/// What is found before anything is printed.
#[derive(Drop)]
pub(crate) enum Finding {
    /// The script is refused at this line.
    NoScript(u32),
    /// What is to be watched: an image, and the acts of its script, none outside mode `steps`.
    Ready(Asking, Image, Vec<Act>),
}

/// The acts of the script after an image, in mode `steps`.
fn read_acts(alloc: Global, asking: &Asking, behind: &[u8]) -> Result<Vec<Act>, ScriptFault>
    requires { length behind.now ≤ input_limit }
    ensures acts { IfOk result (λ acts. HasActs asking.now.course asking.now behind.now acts.items) }
    ensures within { let settings = asking.now.request.settings in
        IfOk result (λ acts. All (ActIsInRange settings.tiles settings.cores) acts.items) }
    ensures few { IfOk result (λ acts. length acts.items < 2 ^ 32) }
    ensures fault { let settings = asking.now.request.settings in
        IfErr result (λ fault. IsFaultOf (acts_of behind.now settings.tiles settings.cores) fault) }
    ensures course { IfErr result (λ fault. asking.now.course ≡ courses.Steps) }
{
    let settings = asking.request.settings;
    match asking.course {
        CourseWord::Steps => read_script(alloc, behind, settings.tiles, settings.cores),
        CourseWord::Least => Ok(Vec::new(alloc)),
        CourseWord::Lockstep { .. } => Ok(Vec::new(alloc)),
    }
}

/// What is found behind the image that was read.
fn find_behind(
    alloc: Global,
    asking: Asking,
    image: Image,
    behind: &[u8],
) -> Result<Finding, FrontFault>
    requires { length behind.now ≤ input_limit }
    ensures found { (input : Input) → ReadsImage front input asking image behind.now → IsFoundOrFault input result }
    ensures playable { IfOk result IsPlayable }
{
    match read_acts(alloc, &asking, behind) {
        Ok(acts) => Ok(Finding::Ready(asking, image, acts)),
        Err(ScriptFault::Line { line }) => Ok(Finding::NoScript(line)),
        Err(ScriptFault::Memory) => Err(FrontFault::Memory),
    }
}

/// Reads the words and the input.
pub(crate) fn find<S: Source>(
    alloc: Global,
    words: &[&str],
    source: &mut S,
) -> Result<Finding, FrontFault>
    ensures found { (placers : List Policy)
        → IsFoundOrFault (input_of words.now placers [] (S.state source.old) (S.state source.new)) result }
    ensures playable { IfOk result IsPlayable }
{
    let asking = match read_asking(alloc, words) {
        Ok(asking) => asking,
        Err(Refusal::Usage) => return Err(FrontFault::Usage),
        Err(Refusal::Memory) => return Err(FrontFault::Memory),
    };
    let opened = match read_input(alloc, source) {
        Ok(opened) => opened,
        Err(fault) => return Err(fault),
    };
    let Opened { bytes, image, size } = opened;
    let (_, behind) = bytes.split_at(size);
    find_behind(alloc, asking, image, behind)
}
