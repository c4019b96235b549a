//! Each act in the log, and its outcome.

ghost use Rattle.std.specs.Prelude.{◌≡◌, ◌+◌, ℕ, Option, false, true, fold, length, option_map};
ghost use Rattle.rv_core.specs.LegValue.{LegValue};
ghost use Rattle.watch_text.specs.conflict_book.Legless.{event_of};
ghost use Rattle.watch_text.specs.event_def.declared.event.Event.TheVariants as event;
ghost use Rattle.watch_text.specs.step_script.Asking.{asks_of};
ghost use Rattle.watch_text.specs.Changes.{core_of_status};
ghost use Rattle.watch_text.specs.Moments.{task_of};
ghost use Rattle.watch_counts.specs.Capped.{capped, capped_counts};
ghost use Rattle.watch_counts.specs.Counts.{after_attempt, after_commit, after_event, after_own, after_passed};
ghost use Rattle.watch_counts.specs.Counts.{after_refusal, after_reply, after_round, after_stall, after_taken};
ghost use Rattle.watch_counts.specs.Counts.{after_told, dispatched_core, one_advance, not_stalled, put_stalled};
ghost use Rattle.watch_counts.specs.Counts.{with_standing};
ghost use Rattle.watch_counts.specs.Kinds.{cause_in_step, cause_of, kind_done, kind_of_event, one_more};
ghost use Rattle.watch_counts.specs.Kinds.{one_stalled_step};
ghost use Rattle.watch_counts.specs.Work.{instructions, refused_leg};

use crate::acts::{ActKind, kind_done, kind_of_act, kind_of_legless};
use crate::causes::{Cause, cause_in_step, cause_of_legless};
use crate::conflict_book::Legless;
use crate::counts::Counts;
use crate::done::{Done, length_place};
use crate::event_def::Reply;
use crate::numbers::{add_at, more};
use crate::places::{places_of, put_stalled};
use crate::spec_state::{Effect, State, Status, TakenTask, TaskId};
use crate::step_script::{Act, Asked};
use rv_core::Naming;
use task_request::Request;
use watch_text::About;

/// The core to which a task was dispatched.
fn dispatched_core<N: Naming>(state: &State<N>, task: Option<TaskId>) -> Option<u32>
    ensures { result ≡ dispatched_core state.now.view (option_map (λ id. id.0) task) }
{
    match task {
        None => None,
        Some(id) => match state.find(id) {
            None => None,
            Some(task) => core_of_status(task.status),
        },
    }
}

/// The core that a status names.
fn core_of_status(status: Status) -> Option<u32>
    ensures { result ≡ core_of_status status }
{
    match status {
        Status::Idle => None,
        Status::Running { core } => Some(core),
        Status::Trapped { core, .. } => Some(core),
        Status::Finished => None,
    }
}

/// The advances behind an act.
fn advances_after(advances: u64, act: Act) -> u64
    ensures { (c : ℕ) → advances ≡ capped c → result ≡ capped (one_advance act c) }
{
    match act {
        Act::Advance => more(advances, 1),
        Act::Dispatch(_) => advances,
        Act::Step(_, _) => advances,
        Act::Take(_, _) => advances,
        Act::Give(_, _) => advances,
        Act::Abort(_) => advances,
        Act::Commit => advances,
        Act::Coalesce(_) => advances,
        Act::Split(_) => advances,
    }
}

impl Counts {
    /// Counts an act of this number, which did what this kind does.
    #[tactic(auto, using(crate::proofs::Stopping::capped_itself))]
    fn tell(&mut self, at: u64, act: Act, kind: ActKind)
        ensures { (c : Counts) → self.old ≡ capped_counts c → self.new ≡ capped_counts (after_told at act kind c) }
    {
        self.acts = at;
        self.told.count(kind);
        self.advances = advances_after(self.advances, act);
    }

    /// An event of this kind was made, and spilled so many tasks.
    fn count_made(&mut self, kind: ActKind, spilled: usize)
        ensures { (c : Counts) → self.old ≡ capped_counts c → self.new ≡ capped_counts (record c {
          events = c.events + 1;
          made = one_more kind c.made;
          spilled = c.spilled + spilled;
        }) }
    {
        self.events = more(self.events, 1);
        self.made.count(kind);
        self.spilled = more(self.spilled, spilled as u64);
    }

    /// A task was dispatched to a core of a tile.
    fn count_dispatch(&mut self, tile: u32, core: Option<u32>)
        ensures { (c : Counts) → self.old ≡ capped_counts c
            → self.new ≡ capped_counts (record c { stalled_cores = not_stalled tile core c.stalled_cores }) }
    {
        match core {
            None => {}
            Some(core) => put_stalled(&mut self.stalled_cores, tile, core, false),
        }
    }

    /// A step was made.
    fn count_step(&mut self, tile: u32, core: u32, steps: u32, request: Option<Request>)
        ensures { (leg : LegValue) (c : Counts) → leg.steps ≡ steps → self.old ≡ capped_counts c
            → self.new ≡ capped_counts (record c {
              work = record c.work { executed = c.work.executed + instructions leg.steps request };
              stalled_cores = put_stalled tile core false c.stalled_cores;
            }) }
    {
        self.work.count_step(steps, request);
        put_stalled(&mut self.stalled_cores, tile, core, false);
    }

    /// A task committed that has done this.
    fn count_commit(&mut self, done: &Done)
        ensures { (c : Counts) → self.old ≡ capped_counts c → self.new ≡ capped_counts (after_commit done.now c) }
    {
        self.work.count_useful(done.used);
        self.committed.count(done.loads, done.stores, done.bytes);
        self.commits.count(done.kind, done.outer as usize);
        self.domains.count_if(done.sub, done.outer as usize + 1);
        add_at(&mut self.lengths, length_place(done.used), 1);
        self.tiles.count_useful(done.tile, done.used);
    }

    /// Counts a task that was aborted.
    fn count_taken(&mut self, cause: Option<Cause>, task: &TakenTask)
        ensures { (c : Counts) → self.old ≡ capped_counts c → self.new ≡ capped_counts (after_taken cause c task.now) }
    {
        self.work.count_wasted(task.used);
        let loads = task.accesses.saturating_sub(task.stores);
        self.undone
            .count(loads as u64, task.stores as u64, task.bytes as u64);
        self.taken.count(cause);
        self.discarded.count_where(task.gone, cause);
        self.tiles.count_taken(task.tile, task.used);
    }

    /// Counts tasks that were aborted.
    fn count_back(&mut self, cause: Option<Cause>, back: &[TakenTask])
        ensures { (c : Counts) → self.old ≡ capped_counts c
            → self.new ≡ capped_counts (fold (after_taken cause) c back.now) }
    {
        for task in back {
            self.count_taken(cause, task);
        }
    }

    /// An event left this machine.
    fn stand<N: Naming>(&mut self, state: &State<N>)
        ensures { (c : Counts) → self.old ≡ capped_counts c
            → self.new ≡ capped_counts (with_standing state.now.view c) }
    {
        self.standing = places_of(state, &self.stalled_cores);
        self.over_events.add(&self.standing);
        self.greatest.rise_to(&self.standing);
    }

    /// What is the own of an event without a leg.
    fn count_own<N: Naming>(
        &mut self,
        event: Legless,
        task: Option<TaskId>,
        done: &Option<Done>,
        state: &State<N>,
    )
        ensures { (request : Option Request) (c : Counts) → self.old ≡ capped_counts c
            → self.new ≡ capped_counts (after_own {N = N} (event_of event) (option_map (λ id. id.0) task) request
            done.now state.now.view c) }
    {
        match event {
            Legless::Dispatch { tile } => self.count_dispatch(tile, dispatched_core(state, task)),
            Legless::Commit => match done {
                None => {}
                Some(done) => self.count_commit(done),
            },
            Legless::Abort { .. } => {}
            Legless::Coalesce { .. } => {}
            Legless::Split { .. } => {}
        }
    }

    /// An event without a leg was made.
    fn count_event<N: Naming>(
        &mut self,
        event: Legless,
        about: &About,
        effect: &Effect,
        done: &Option<Done>,
        state: &State<N>,
    )
        ensures { (c : Counts) → self.old ≡ capped_counts c
            → self.new ≡ capped_counts (after_event {N = N} (event_of event) (task_of about.now) about.now.request
            effect.now done.now state.now.view c) }
    {
        self.count_made(kind_of_legless::<N>(event), effect.spilled().len());
        self.count_own(event, about.task, done, state);
        self.count_back(cause_of_legless::<N>(event, about.request), effect.back());
        self.stand(state);
    }

    /// A step was made.
    fn count_leg<N: Naming>(
        &mut self,
        tile: u32,
        core: u32,
        steps: u32,
        about: &About,
        effect: &Effect,
        state: &State<N>,
    )
        ensures { (leg : LegValue) (done : Option Done) (c : Counts) → leg.steps ≡ steps → self.old ≡ capped_counts c
            → self.new ≡ capped_counts (after_event {N = N} (event.Step tile core leg) (task_of about.now)
            about.now.request effect.now done state.now.view c) }
    {
        self.count_made(ActKind::Step, effect.spilled().len());
        self.count_step(tile, core, steps, about.request);
        self.count_back(cause_in_step(about.request), effect.back());
        self.stand(state);
    }

    /// An event without a leg stalled.
    fn count_stalled<N: Naming>(&mut self, event: Legless, request: Option<Request>)
        ensures { (c : Counts) → self.old ≡ capped_counts c → self.new ≡ capped_counts
            (after_stall {N = N} (event_of event) request (after_refusal {N = N} (event_of event) request c)) }
    {
        let _ = request;
        match event {
            Legless::Split { .. } => self.stalls.count_split(),
            Legless::Dispatch { .. } => {}
            Legless::Abort { .. } => {}
            Legless::Commit => {}
            Legless::Coalesce { .. } => {}
        }
    }

    /// A step was refused.
    fn count_refused(&mut self, steps: u32, request: Option<Request>)
        ensures { (leg : LegValue) (c : Counts) → leg.steps ≡ steps → self.old ≡ capped_counts c
            → self.new ≡ capped_counts (record c {
              work = record c.work { refused = c.work.refused + refused_leg leg.steps request };
            }) }
    {
        self.work.count_refused(steps, request);
    }

    /// And it stalled.
    fn count_stalled_step(&mut self, tile: u32, core: u32, request: Option<Request>)
        ensures { (c : Counts) → self.old ≡ capped_counts c → self.new ≡ capped_counts (record c {
          stalls = one_stalled_step request c.stalls;
          stalled_cores = put_stalled tile core true c.stalled_cores;
        }) }
    {
        self.stalls.count_step(request);
        put_stalled(&mut self.stalled_cores, tile, core, true);
    }

    /// An event without a leg had a reply.
    fn count_legless<N: Naming>(
        &mut self,
        reply: Reply,
        event: Legless,
        about: &About,
        effect: &Effect,
        done: &Option<Done>,
        state: &State<N>,
    )
        ensures { (c : Counts) → self.old ≡ capped_counts c
            → self.new ≡ capped_counts (after_reply {N = N} reply (event_of event) (task_of about.now)
            about.now.request effect.now done.now state.now.view c) }
    {
        match reply {
            Reply::Ok => self.count_event(event, about, effect, done, state),
            Reply::Stall => self.count_stalled::<N>(event, about.request),
            Reply::Empty => {}
            Reply::Busy => {}
            Reply::Stale => {}
            Reply::Firm => {}
            Reply::Ended => {}
            Reply::Memory => {}
        }
    }

    /// A step had a reply.
    fn count_ready<N: Naming>(
        &mut self,
        reply: Reply,
        tile: u32,
        core: u32,
        steps: u32,
        about: &About,
        effect: &Effect,
        state: &State<N>,
    )
        ensures { (leg : LegValue) (done : Option Done) (c : Counts) → leg.steps ≡ steps → self.old ≡ capped_counts c
            → self.new ≡ capped_counts (after_reply {N = N} reply (event.Step tile core leg) (task_of about.now)
            about.now.request effect.now done state.now.view c) }
    {
        match reply {
            Reply::Ok => self.count_leg(tile, core, steps, about, effect, state),
            Reply::Stall => {
                self.count_refused(steps, about.request);
                self.count_stalled_step(tile, core, about.request);
            }
            Reply::Empty => self.count_refused(steps, about.request),
            Reply::Busy => self.count_refused(steps, about.request),
            Reply::Stale => self.count_refused(steps, about.request),
            Reply::Firm => self.count_refused(steps, about.request),
            Reply::Ended => self.count_refused(steps, about.request),
            Reply::Memory => self.count_refused(steps, about.request),
        }
    }

    /// Counts the outcome of an act.
    fn count_attempt<N: Naming>(
        &mut self,
        asked: &Asked,
        steps: u32,
        about: &About,
        reply: Reply,
        effect: &Effect,
        done: &Option<Done>,
        state: &State<N>,
    )
        ensures { (leg : LegValue) (c : Counts) → leg.steps ≡ steps → self.old ≡ capped_counts c
            → self.new ≡ capped_counts (after_attempt reply (asks_of {N = N} asked.now leg) (task_of about.now)
            about.now.request effect.now done.now state.now.view c) }
    {
        match *asked {
            Asked::Legless(event) => self.count_legless(reply, event, about, effect, done, state),
            Asked::Ready { tile, core } => {
                self.count_ready(reply, tile, core, steps, about, effect, state);
            }
            Asked::Says(_) => {}
        }
    }

    /// Counts an act in the log: its number from 1, what it asked for, how many instructions its leg has, what it is
    /// about, what the task of a commit had done, the reply, what an event did beside its one change, and the machine
    /// after it.
    pub fn note<N: Naming>(
        &mut self,
        at: u64,
        act: Act,
        asked: &Asked,
        steps: u32,
        about: &About,
        done: &Option<Done>,
        reply: Reply,
        effect: &Effect,
        state: &State<N>,
    )
        ensures { (leg : LegValue) (c : Counts) → leg.steps ≡ steps → self.old ≡ capped_counts c
            → self.new ≡ capped_counts (after_attempt reply (asks_of {N = N} asked.now leg) (task_of about.now)
            about.now.request effect.now done.now state.now.view
            (after_told at act (kind_done act (asks_of {N = N} asked.now leg)) c)) }
    {
        self.tell(at, act, kind_done::<N>(act, asked));
        self.count_attempt(asked, steps, about, reply, effect, done, state);
    }

    /// Counts an act that isn't asked for.
    pub fn pass(&mut self, act: Act)
        ensures { (c : Counts) → self.old ≡ capped_counts c → self.new ≡ capped_counts (after_passed act c) }
    {
        self.passed.count(kind_of_act(act));
    }

    /// Counts a round that ended.
    pub fn end_round(&mut self)
        ensures { (c : Counts) → self.old ≡ capped_counts c → self.new ≡ capped_counts (after_round c) }
    {
        self.rounds = more(self.rounds, 1);
        self.over_rounds.add(&self.standing);
    }
}
