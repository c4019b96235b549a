//! Queries of a book, and how it is stopped. No call allocates memory.

ghost use Rattle.std.specs.Prelude.{◌≡◌, ◌↔◌, ◌<◌, ◌≤◌, ℕ, true, Some, IsNone, IfSome, IsTrue, length};
ghost use Rattle.std.specs.Prelude.{map, option_map, option_and_then, slice_get};
ghost use Rattle.event_step.specs.spec_state.declared.task.Task.{Task};
ghost use Rattle.event_step.specs.spec_law.Sound.{Sound};
ghost use Rattle.event_step.specs.spec_state.Settings.{IsValid};
ghost use Rattle.event_step.specs.spec_state.View.{loads};
ghost use Rattle.event_step.specs.spec_state.Queries.{IsFreeCore, IsIdle, IsRunning};
ghost use Rattle.event_step.specs.event_def.Book.{picked_tile};
ghost use Rattle.event_step.specs.event_def.End.{HasEnd, IsOver};
ghost use Rattle.conflict_book.specs.Counts.{counts_of};
ghost use Rattle.conflict_book.specs.BookViews.{effect_of, events_made, machine_view, view_of};
ghost use Rattle.conflict_book.specs.Ready.{HasRunning, IsReady};

use crate::book::Book;
use crate::event_prelude::end_of;
use crate::serial_machine::{End, Entry};
use crate::spec_dispatch::free_core;
use crate::spec_state::{Effect, Loads, Settings, State, Status, TaskId};
use place_policy::{Placer, serving_pick};
use progress_cell::Reading;
use rv_core::{Core, Decoded, Naming, NotedCore};
use std::alloc::Global;
use trace_tap::Tap;

/// The settings of a state, which are within their limits.
fn limited_settings<N: Naming>(state: &State<N>) -> &Settings
    ensures value { result.now ≡ state.now.view.settings }
    ensures valid { IsValid result.now }
    ensures budget { result.now.budget ≡ N.budget }
{
    // A law, called for its clauses.
    state.has_limits();
    state.settings()
}

/// How many tasks of a sound state are committed, and how many bytes these emitted.
#[tactic(auto, using(crate::proofs::Few::few_commits))]
fn counts<N: Naming>(state: &State<N>) -> Reading
    requires { Sound N.image state.now.view }
    ensures { result ≡ counts_of state.now.view }
{
    Reading {
        commits: state.history().len() as u32,
        output: state.output().len() as u64,
    }
}

/// The core of a running task that a core of a tile holds; None exactly where no running task is there.
fn running_core<N: Naming>(state: &State<N>, tile: u32, core: u32) -> Option<&NotedCore>
    requires tile { tile < state.now.view.settings.tiles }
    requires core { core < state.now.view.settings.cores }
    requires sound { Sound N.image state.now.view }
    ensures within { IfSome result (λ c. c.now.used ≤ state.now.view.settings.budget) }
    ensures some { IfSome result (λ c. HasRunning state.now.view tile core c.now) }
    ensures none { let view = state.now.view in
        IsNone result ↔ ((id : ℕ) (task : Task) → IsRunning view tile core id task → ⊥) }
{
    // A law, called for its clauses.
    state.is_stored();
    let id = state.on_core(tile, core)?;
    let task = state.task(id);
    match task.status {
        Status::Running { .. } => Some(&task.core),
        Status::Idle | Status::Trapped { .. } | Status::Finished => None,
    }
}

impl<N: Naming, P: Placer, T: Tap> Book<N, P, T> {
    /// Law: what holds of every book. Its state is sound, so that its journal is a run of the image that `N` names;
    /// its settings are valid, with the task budget and the commit limit that `N` names.
    pub fn is_sound(&self)
        ensures sound { Sound N.image (machine_view self.now) }
        ensures valid { IsValid (machine_view self.now).settings }
        ensures budget { (machine_view self.now).settings.budget ≡ N.budget }
        ensures commits { (machine_view self.now).settings.commits ≡ N.commits }
    {
        // Laws, called for their clauses.
        self.sound.is_sound();
        self.sound.state().has_limits();
    }

    /// The state, for reports of it.
    pub fn state(&self) -> &State<N>
        ensures view { result.now.view ≡ machine_view self.now }
        ensures sound { Sound N.image result.now.view }
    {
        self.sound.state()
    }

    /// What the last event did beside its one change: the tasks that it aborted, spilled and created. Nothing where it
    /// was refused, and before the first one.
    pub fn effect(&self) -> &Effect
        ensures { result.now ≡ effect_of self.now }
    {
        &self.sound.state().effect
    }

    /// The allocator of its parts.
    pub fn alloc(&self) -> Global {
        self.sound.state().alloc()
    }

    /// The text of the image, decoded.
    pub fn decoded_text(&self) -> &Decoded<N> {
        self.sound.state().decoded_text()
    }

    /// The settings with which it began: they are valid, with the task budget that `N` names.
    pub fn settings(&self) -> &Settings
        ensures value { result.now ≡ (machine_view self.now).settings }
        ensures valid { IsValid result.now }
        ensures budget { result.now.budget ≡ N.budget }
    {
        limited_settings(self.sound.state())
    }

    /// How the run ended: with no task uncommitted, with as many committed as may, or at a trap of the least task;
    /// None exactly where it goes on.
    pub fn end(&self) -> Option<End>
        ensures some { IfSome result (HasEnd (machine_view self.now)) }
        ensures none { let book = view_of P.policy T.notes self.now in
            IsNone result ↔ (IsOver book.view → ⊥) }
    {
        end_of(self.sound.state())
    }

    /// How many events were made, up to 2^64 - 1.
    pub fn steps(&self) -> u64
        ensures { result ≡ events_made self.now }
    {
        self.sound.steps
    }

    /// The committed tasks, in the order of their commits.
    pub fn history(&self) -> &[Entry]
        ensures { result.now ≡ (machine_view self.now).history }
    {
        self.sound.state().history()
    }

    /// How far the run has come: how many tasks are committed, and how many bytes these emitted.
    pub fn counts(&self) -> Reading
        ensures { result ≡ counts_of (machine_view self.now) }
    {
        counts(self.sound.state())
    }

    /// How many tasks each tile's task queue holds, the lowest tile first.
    pub fn loads(&self) -> Loads
        ensures { result ≡ loads (machine_view self.now) }
    {
        self.sound.state().loads()
    }

    /// The tile in which an enqueue of this hint would place the child, as the serving placer picks it now. No
    /// placement is reported to the placer, so its state stays.
    pub fn tile_for(&self, hint: u32) -> u32
        ensures tile { result ≡ picked_tile (view_of P.policy T.notes self.now) hint }
        ensures inside { result < (machine_view self.now).settings.tiles }
    {
        // A law, called for its clauses.
        self.sound.is_sound();
        serving_pick(self.placers.as_slice(), hint, self.loads().as_slice())
    }

    /// The core to which the running task on a core of a tile has come, within the task budget; None exactly where
    /// no running task is there, so also of a tile or a core that the machine hasn't.
    pub fn core_at(&self, tile: u32, core: u32) -> Option<&Core>
        ensures within { let view = machine_view self.now in
            IfSome result (λ c. c.now.used ≤ view.settings.budget) }
        ensures some { let view = machine_view self.now in
            IfSome result (λ c. HasRunning view tile core c.now) }
        ensures none { let view = machine_view self.now in
            IsNone result ↔ ((id : ℕ) (task : Task) → IsRunning view tile core id task → ⊥) }
    {
        match self.core_in_place(tile, core) {
            Some(found) => Some(found.core()),
            None => None,
        }
    }

    /// The core of the task that runs there, as [`core_at`](Book::core_at) gives it, with whether its stack is known to
    /// be empty (`NotedCore`). None exactly where no task runs there.
    pub fn core_in_place(&self, tile: u32, core: u32) -> Option<&NotedCore>
        ensures within { let view = machine_view self.now in
            IfSome result (λ c. c.now.used ≤ view.settings.budget) }
        ensures some { let view = machine_view self.now in
            IfSome result (λ c. HasRunning view tile core c.now) }
        ensures none { let view = machine_view self.now in
            IsNone result ↔ ((id : ℕ) (task : Task) → IsRunning view tile core id task → ⊥) }
    {
        // A law, called for its clauses.
        self.sound.is_sound();
        let settings = self.settings();
        if tile >= settings.tiles || core >= settings.cores {
            return None;
        }
        running_core(self.sound.state(), tile, core)
    }

    /// Whether a tile has an idle task and a core that holds no task. It looks at each task of the queue.
    pub fn ready(&self, tile: u32) -> bool
        requires tile { tile < (machine_view self.now).settings.tiles }
        ensures { IsTrue result ↔ IsReady (machine_view self.now) tile }
    {
        let state = self.sound.state();
        free_core(state, tile).is_some() && state.idle(tile).is_some()
    }

    /// Lets no event through any more: each one is answered `Memory` from now on, also at the end of the run. A worker
    /// calls it where memory ran out for its event, so that the others are answered the same, and leave off too.
    pub fn stop(&mut self)
        ensures { let old = view_of P.policy T.notes self.old in
            view_of P.policy T.notes self.new ≡ record old { stopped = true } }
    {
        self.stopped = true;
    }

    /// How many numbers the list of a tap has; None exactly past the last tap.
    pub fn tap_len(&self, tap: usize) -> Option<u32>
        ensures { let book = view_of P.policy T.notes self.now in
            result ≡ option_map (λ value. length value.list) (slice_get book.taps tap) }
    {
        let found = self.taps.get(tap)?;
        Some(found.len())
    }

    /// The number at a place of the list of a tap; None exactly past its end, or past the last tap.
    pub fn tap_at(&self, tap: usize, place: u32) -> Option<u64>
        ensures { let book = view_of P.policy T.notes self.now in
            result ≡ option_and_then (λ value. slice_get value.list place) (slice_get book.taps tap) }
    {
        let found = self.taps.get(tap)?;
        found.at(place)
    }
}
