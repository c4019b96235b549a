//! Acts and events by kind.

ghost use Rattle.std.specs.Prelude.{◌≡◌};
ghost use Rattle.rv_core.specs.LegValue.{LegValue};
ghost use Rattle.watch_text.specs.step_script.Asking.{asks_of};
ghost use Rattle.watch_text.specs.conflict_book.Legless.{event_of};
ghost use Rattle.watch_counts.specs.Nothing.{no_acts};
ghost use Rattle.watch_counts.specs.Capped.{capped_acts};
ghost use Rattle.watch_counts.specs.Kinds.{kind_done, kind_of_act, kind_of_event, one_more};

use crate::conflict_book::Legless;
use crate::numbers::more;
use crate::step_script::{Act, Asked};
use rv_core::Naming;

/// What an act does, or an event.
#[derive(Clone, Copy, Debug, PartialEq, Eq)]
pub enum ActKind {
    /// A task goes to a core.
    Dispatch,
    /// A leg of a task is run and handed in.
    Step,
    /// A leg is run and held.
    Take,
    /// A leg that is held is handed in.
    Give,
    /// A task is aborted.
    Abort,
    /// The least task commits.
    Commit,
    /// Tasks are spilled.
    Coalesce,
    /// A spilled task comes back.
    Split,
    /// The least task is advanced.
    Advance,
}

/// How many there were of each kind.
#[derive(Clone, Copy, Debug, PartialEq, Eq)]
pub struct ActCounts {
    /// Dispatches.
    pub dispatch: u64,
    /// Steps.
    pub step: u64,
    /// Legs that were run and held.
    pub take: u64,
    /// Held legs that were handed in.
    pub give: u64,
    /// Aborts.
    pub abort: u64,
    /// Commits.
    pub commit: u64,
    /// Coalescings.
    pub coalesce: u64,
    /// Splits.
    pub split: u64,
    /// Acts that advanced the least task.
    pub advance: u64,
}

/// The kind of an act.
pub(crate) fn kind_of_act(act: Act) -> ActKind
    ensures { result ≡ kind_of_act act }
{
    match act {
        Act::Dispatch(_) => ActKind::Dispatch,
        Act::Step(_, _) => ActKind::Step,
        Act::Take(_, _) => ActKind::Take,
        Act::Give(_, _) => ActKind::Give,
        Act::Abort(_) => ActKind::Abort,
        Act::Commit => ActKind::Commit,
        Act::Coalesce(_) => ActKind::Coalesce,
        Act::Split(_) => ActKind::Split,
        Act::Advance => ActKind::Advance,
    }
}

/// The kind of an event without a leg.
pub(crate) fn kind_of_legless<N: Naming>(event: Legless) -> ActKind
    ensures { result ≡ kind_of_event {N = N} (event_of event) }
{
    match event {
        Legless::Dispatch { .. } => ActKind::Dispatch,
        Legless::Abort { .. } => ActKind::Abort,
        Legless::Commit => ActKind::Commit,
        Legless::Coalesce { .. } => ActKind::Coalesce,
        Legless::Split { .. } => ActKind::Split,
    }
}

/// The kind of the event that is handed in, or of the act where none is.
pub(crate) fn kind_done<N: Naming>(act: Act, asked: &Asked) -> ActKind
    ensures { (leg : LegValue) → result ≡ kind_done act (asks_of {N = N} asked.now leg) }
{
    match *asked {
        Asked::Legless(event) => kind_of_legless::<N>(event),
        Asked::Ready { .. } => ActKind::Step,
        Asked::Says(_) => kind_of_act(act),
    }
}

impl ActCounts {
    /// None of any kind.
    pub(crate) fn none() -> Self
        ensures { result ≡ no_acts }
    {
        ActCounts {
            dispatch: 0,
            step: 0,
            take: 0,
            give: 0,
            abort: 0,
            commit: 0,
            coalesce: 0,
            split: 0,
            advance: 0,
        }
    }

    /// One more of a kind.
    pub(crate) fn count(&mut self, kind: ActKind)
        ensures { (c : ActCounts) → self.old ≡ capped_acts c → self.new ≡ capped_acts (one_more kind c) }
    {
        match kind {
            ActKind::Dispatch => self.dispatch = more(self.dispatch, 1),
            ActKind::Step => self.step = more(self.step, 1),
            ActKind::Take => self.take = more(self.take, 1),
            ActKind::Give => self.give = more(self.give, 1),
            ActKind::Abort => self.abort = more(self.abort, 1),
            ActKind::Commit => self.commit = more(self.commit, 1),
            ActKind::Coalesce => self.coalesce = more(self.coalesce, 1),
            ActKind::Split => self.split = more(self.split, 1),
            ActKind::Advance => self.advance = more(self.advance, 1),
        }
    }
}
