//! A report that is checked against the serial machine, by its turns one after another.

ghost use Rattle.std.specs.Prelude.{◌≡◌, ◌≢◌, ◌+◌, ◌<◌, ◌≤◌, length, take, Some, slice_get, true};
ghost use Rattle.std.specs.Prelude.{IfErr, IfOk, IfSome, MatchBool, MatchOption};
ghost use Rattle.run_law.specs.serial_machine.declared.limits.TheConstants.{MAX_BUDGET, MAX_COMMITS};
ghost use Rattle.run_law.specs.serial_machine.Run.{IsRun};
ghost use Rattle.report_text.specs.Check.{AgreeOnTheLine, DifferFirst, HasLawfulRun, IsExamined, IsReplayed, IsVerdict};
ghost use Rattle.report_text.specs.Replay.{IsNoRun, TellsWhetherItEnds};
ghost use Rattle.report_text.specs.Report.{window_of};

use crate::report::{Report, WindowWord};
use crate::serial_machine::{End, Entry, Serial, TurnFault};
use crate::verdict::{Examined, NoRun, Verdict};
use crate::window::{window_len, word_of};
use guest_image::Image;
use std::alloc::Global;

/// Whether a report is that of a run of the image with these limits: `commits` is 1 to 1,000,000 and `budget` 1 to
/// 65,536. `Illegal` names the first line that isn't the run's. A report that is accepted meets the laws of runs.
pub fn check(alloc: Global, image: &Image, commits: u32, budget: u32, report: &Report) -> Verdict
    requires commits { (1 ≤ commits) × (commits ≤ MAX_COMMITS) }
    requires budget { (1 ≤ budget) × (budget ≤ MAX_BUDGET) }
    ensures verdict { IsVerdict image.now commits budget report.now result }
    ensures laws { result ≡ Verdict.Yes → HasLawfulRun image.now commits budget report.now }
{
    match examine(alloc, image, commits, budget, report) {
        Examined::Yes(_) => Verdict::Yes,
        Examined::Illegal { line, why } => Verdict::Illegal { line, why },
        Examined::Memory => Verdict::Memory,
    }
}

/// As `check`, with the machine at the end of the report's run where it is that of a run.
#[tactic(auto, using(crate::proofs::Written::length_window))]
pub fn examine(alloc: Global, image: &Image, commits: u32, budget: u32, report: &Report) -> Examined
    requires commits { (1 ≤ commits) × (commits ≤ MAX_COMMITS) }
    requires budget { (1 ≤ budget) × (budget ≤ MAX_BUDGET) }
    ensures { IsExamined image.now commits budget report.now result }
{
    let journal = report.journal.as_slice();
    let mut serial = match replay(alloc, image, commits, budget, journal) {
        Ok(serial) => serial,
        Err(NoRun::Line { line, why }) => return Examined::Illegal { line, why },
        Err(NoRun::Memory) => return Examined::Memory,
    };
    // The run is within the commit limit, so the number of its entries fits.
    let count = journal.len() as u32;
    if serial.output() != report.output.as_slice() {
        return illegal(count + 2);
    }
    if let Some(place) = wrong_word(image, serial.memory(), report.window.as_slice()) {
        return illegal(count + 3 + place);
    }
    match ends(image, commits, count, &mut serial, report.end) {
        None => Examined::Memory,
        Some(true) => Examined::Yes(serial),
        Some(false) => illegal(count + 3 + window_len(image)),
    }
}

fn illegal(line: u32) -> Examined
    ensures { result ≡ Examined.Illegal line None }
{
    Examined::Illegal { line, why: None }
}

// The machine behind the turns of all entries, or the first entry that isn't the run's.
fn replay(
    alloc: Global,
    image: &Image,
    commits: u32,
    budget: u32,
    journal: &[Entry],
) -> Result<Serial, NoRun>
    requires commits { commits ≤ MAX_COMMITS }
    requires budget { budget ≤ MAX_BUDGET }
    ensures ok { IfOk result (λ s. IsReplayed image.now commits budget journal.now s.state) }
    ensures budget { IfOk result (λ s. s.budget ≡ budget) }
    ensures count { IfOk result (λ s. s.state.count ≡ length journal.now) }
    ensures size { IfOk result (λ s. length s.state.memory ≡ image.now.data_size) }
    ensures err { IfErr result (λ w. IsNoRun image.now commits budget journal.now w) }
{
    // An image is within its limits, so the machine's memory has its data size.
    let _ = image.initial();
    let Ok(mut serial) = Serial::begin(alloc, image, budget) else {
        return Err(NoRun::Memory);
    };
    for index in 0..journal.len() {
        let entry = entry_at(journal, index);
        let line = index as u32 + 2;
        if index >= commits as usize {
            return Err(NoRun::Line { line, why: None });
        }
        match serial.turn(image, entry.name) {
            Ok(found) => {
                if !is_same(&found, &entry) {
                    return Err(NoRun::Line { line, why: None });
                }
            }
            Err(fault) => {
                if is_memory(fault) {
                    return Err(NoRun::Memory);
                }
                return Err(NoRun::Line {
                    line,
                    why: Some(fault),
                });
            }
        }
    }
    Ok(serial)
}

#[tactic(auto, using(crate::proofs::Replays::found_at))]
fn entry_at(journal: &[Entry], index: usize) -> Entry
    requires { index < length journal.now }
    ensures { slice_get journal.now index ≡ Some result }
{
    journal[index]
}

fn is_same(found: &Entry, entry: &Entry) -> bool
    ensures { MatchBool result (found.now ≡ entry.now) (found.now ≢ entry.now) }
{
    found == entry
}

fn is_memory(fault: TurnFault) -> bool
    ensures { MatchBool result (fault ≡ TurnFault.Memory) (fault ≢ TurnFault.Memory) }
{
    match fault {
        TurnFault::Memory => true,
        TurnFault::NotPending
        | TurnFault::NotTop { .. }
        | TurnFault::NotLeast { .. }
        | TurnFault::Trap { .. } => false,
    }
}

// The place of the first window word that isn't the memory's, or where one is missing or too many.
fn wrong_word(image: &Image, memory: &[u8], window: &[WindowWord]) -> Option<u32>
    requires { length memory.now ≡ image.now.data_size }
    ensures place { let words = window_of image.now memory.now in
        MatchOption result (window.now ≡ words) (DifferFirst window.now words) }
    ensures within { IfSome result (λ place. place ≤ 4096) }
{
    let words = window_len(image);
    for place in 0..words {
        if !is_word_at(window, place, word_of(image, memory, place)) {
            return Some(place);
        }
    }
    if window.len() == words as usize {
        None
    } else {
        Some(words)
    }
}

// Whether the window has this word at the place.
fn is_word_at(window: &[WindowWord], place: u32, word: WindowWord) -> bool
    ensures { MatchBool result (slice_get window.now place ≡ Some word) (slice_get window.now place ≢ Some word) }
{
    match window.get(place as usize) {
        Some(found) => *found == word,
        None => false,
    }
}

// Whether a run of `count` turns that led to this machine ends so; None when out of memory. The
// machine is as it was where it does.
fn ends(image: &Image, commits: u32, count: u32, serial: &mut Serial, end: End) -> Option<bool>
    requires count { serial.old.state.count ≡ count }
    requires limit { (count ≤ commits) × (commits ≤ MAX_COMMITS) }
    ensures verdict { IfSome result (TellsWhetherItEnds image.now commits count serial.old end) }
    ensures same { IfSome result (λ b. b ≡ true → serial.new ≡ serial.old) }
{
    match end {
        End::Normal => Some(!serial.pending()),
        End::Limit => Some(serial.pending() && count == commits),
        End::Unfinished => Some(serial.pending() && count < commits),
        End::Trap { name, cause, pc } => {
            if count >= commits {
                return Some(false);
            }
            match serial.turn(image, name) {
                Ok(_) => Some(false),
                Err(fault) => {
                    if is_memory(fault) {
                        return None;
                    }
                    Some(is_trap(fault, cause, pc))
                }
            }
        }
    }
}

// Whether a refusal is this trap.
fn is_trap(fault: TurnFault, cause: u8, pc: u32) -> bool
    ensures { MatchBool result (fault ≡ TurnFault.Trap cause pc) (fault ≢ TurnFault.Trap cause pc) }
{
    match fault {
        TurnFault::Trap {
            cause: found,
            pc: at,
        } => found == cause && at == pc,
        TurnFault::NotPending
        | TurnFault::NotTop { .. }
        | TurnFault::NotLeast { .. }
        | TurnFault::Memory => false,
    }
}

/// Verdicts exclude each other: a report is that of a run, or one line of it is the first that isn't.
#[tactic(auto, using(crate::proofs::Verdicts::agree))]
pub fn verdicts_agree_on_the_line()
    ensures { AgreeOnTheLine }
{}
