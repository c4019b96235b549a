//! A run and one that went on from its saved image, as one run.

ghost use Rattle.std.specs.Prelude.{◌≡◌, ◌<◌, ◌≤◌, ◌+◌, ◌^◌, ℕ, List, All, length, IfOk};
ghost use Rattle.guest_image.specs.ImageValue.{ImageValue};
ghost use Rattle.run_journal.specs.declared.journal.Entry.{Entry};
ghost use Rattle.conflict_book.specs.serial_machine.Run.{IsRun};
ghost use Rattle.conflict_book.specs.serial_machine.State.{SerialState};
ghost use Rattle.conflict_book.specs.Frozen.{IsFrozenOf};
ghost use Rattle.resume_image.specs.Saved.{IsSavedOf};
ghost use Rattle.resume_image.specs.Joined.{IsJoinedRun, RunsJoin, joined_journal, shifted_name, shifted_entry};

use crate::serial_machine::MAX_COMMITS;
use crate::spec_state::Pending;
use conflict_book::Frozen;
use guest_image::Image;
use run_journal::{Entry, Journal};
use std::alloc::{AllocError, Global};
use task_desc::Name;

/// Law: a run whose pending tasks are all in the root domain, and a run of the image with these tasks and the memory of
/// the first are one run.
pub fn runs_join()
    ensures { RunsJoin }
{}

/// Law: each task that takes a turn of a run was made by the image or by a turn of that run.
fn creators_are_turns()
    ensures { (image : ImageValue) → (budget : ℕ) → (journal : List Entry) → (state : SerialState)
        → IsRun image budget journal state → All (λ e. e.name.creator ≤ length journal) journal }
{}

/// Law: a stopped run and a run of its saved image are one run.
fn joined_is_run(image: &Image, budget: u32, frozen: &Frozen, saved: &Image, two: &Journal)
    requires frozen { IsFrozenOf image.now budget frozen.now }
    requires saved { IsSavedOf image.now frozen.now saved.now }
    ensures { (second : SerialState) → IsRun saved.now budget two.now second
        → IsJoinedRun image.now budget frozen.now.closed.journal two.now frozen.now.closed.output frozen.now.pending
        second }
{
    let _ = image.tasks();
}

/// The name in the first run of a task of the run that went on, where the first took so many turns.
fn shift(turns: u32, pending: &[Pending], name: Name) -> Name
    requires { turns + name.creator < 2 ^ 32 }
    ensures { result ≡ shifted_name turns pending.now name }
{
    if name.creator == 0 {
        match pending.get(name.index as usize) {
            Some(task) => task.name,
            None => name,
        }
    } else {
        Name {
            creator: turns + name.creator,
            index: name.index,
        }
    }
}

/// An entry of the run that went on, under that name.
fn shift_entry(turns: u32, pending: &[Pending], entry: &Entry) -> Entry
    requires { turns + entry.now.name.creator < 2 ^ 32 }
    ensures { result ≡ shifted_entry turns pending.now entry.now }
{
    Entry {
        name: shift(turns, pending, entry.name),
        depth: entry.depth,
        ts: entry.ts,
    }
}

/// The journal of a stopped run of `image`, followed by that of a run of its saved image with the same budget, each
/// task under the name that it has in the one run that both are. Each journal has at most 1,000,000 entries, since a
/// creator's number grows by the first; `snapshot` doesn't require that.
///
/// `AllocError` if memory runs out.
pub fn join_runs(
    alloc: Global,
    image: &Image,
    budget: u32,
    frozen: &Frozen,
    saved: &Image,
    two: &Journal,
) -> Result<Journal, AllocError>
    requires frozen { IsFrozenOf image.now budget frozen.now }
    requires saved { IsSavedOf image.now frozen.now saved.now }
    requires run { (second : SerialState) × IsRun saved.now budget two.now second }
    requires first_fits { length frozen.now.closed.journal ≤ MAX_COMMITS }
    requires second_fits { length two.now ≤ MAX_COMMITS }
    ensures journal { IfOk result
        (λ journal. journal ≡ joined_journal frozen.now.closed.journal frozen.now.pending two.now) }
    ensures run { (second : SerialState) → IsRun saved.now budget two.now second
        → IsJoinedRun image.now budget frozen.now.closed.journal two.now frozen.now.closed.output frozen.now.pending
        second }
{
    joined_is_run(image, budget, frozen, saved, two);
    creators_are_turns();
    let one = frozen.closed.journal.as_slice();
    let pending = frozen.pending.as_slice();
    let entries = two.as_slice();
    let turns = one.len() as u32;
    let mut journal = Vec::with_capacity(alloc, one.len() + entries.len())?;
    journal.extend_from_slice(one)?;
    for entry in entries {
        journal.push(shift_entry(turns, pending, entry))?;
    }
    Ok(Journal::from_vec(journal))
}
