//! Tasks that were aborted, by cause.

ghost use Rattle.std.specs.Prelude.{◌≡◌, Some, if◌then◌else◌};
ghost use Rattle.watch_text.specs.conflict_book.Legless.{event_of};
ghost use Rattle.watch_counts.specs.Nothing.{no_causes};
ghost use Rattle.watch_counts.specs.Capped.{capped_causes};
ghost use Rattle.watch_counts.specs.Kinds.{cause_in_step, cause_of, one_taken};

use crate::conflict_book::Legless;
use crate::numbers::more;
use rv_core::Naming;
use task_request::Request;

/// Why an event aborts tasks.
#[derive(Clone, Copy, Debug, PartialEq, Eq)]
pub enum Cause {
    /// A load meets a store of theirs.
    Load,
    /// A store meets an access of theirs.
    Store,
    /// A task that ends wants room in the commit queue.
    CommitQueue,
    /// An enqueue or a split wants room in a task queue.
    TaskQueue,
    /// A dispatch wants a core.
    Core,
    /// A script asks for it.
    Asked,
}

/// How many tasks there were for each cause.
#[derive(Clone, Copy, Debug, PartialEq, Eq)]
pub struct CauseCounts {
    /// For a load.
    pub load: u64,
    /// For a store.
    pub store: u64,
    /// For room in a commit queue.
    pub commit_queue: u64,
    /// For room in a task queue.
    pub task_queue: u64,
    /// For a core.
    pub core: u64,
    /// Since they were asked for.
    pub asked: u64,
}

/// Why a step aborts tasks, by what its task asks for.
pub(crate) fn cause_in_step(request: Option<Request>) -> Option<Cause>
    ensures { result ≡ cause_in_step request }
{
    match request {
        None => None,
        Some(Request::Load { .. }) => Some(Cause::Load),
        Some(Request::Store { .. }) => Some(Cause::Store),
        Some(Request::Enqueue(_)) => Some(Cause::TaskQueue),
        Some(Request::End) => Some(Cause::CommitQueue),
        Some(Request::Continue) => None,
        Some(Request::MakeSub(_)) => None,
        Some(Request::Emit(_)) => None,
        Some(Request::Trap { .. }) => None,
    }
}

/// Why an event without a leg does, which asks for nothing.
pub(crate) fn cause_of_legless<N: Naming>(event: Legless, request: Option<Request>) -> Option<Cause>
    ensures { result ≡ cause_of {N = N} (event_of event) request }
{
    let _ = request;
    match event {
        Legless::Dispatch { .. } => Some(Cause::Core),
        Legless::Abort { .. } => Some(Cause::Asked),
        Legless::Commit => None,
        Legless::Coalesce { .. } => None,
        Legless::Split { .. } => Some(Cause::TaskQueue),
    }
}

impl CauseCounts {
    /// None for any cause.
    pub(crate) fn none() -> Self
        ensures { result ≡ no_causes }
    {
        CauseCounts {
            load: 0,
            store: 0,
            commit_queue: 0,
            task_queue: 0,
            core: 0,
            asked: 0,
        }
    }

    /// One more for a cause.
    pub(crate) fn count(&mut self, cause: Option<Cause>)
        ensures { (c : CauseCounts) → self.old ≡ capped_causes c → self.new ≡ capped_causes (one_taken cause c) }
    {
        match cause {
            None => {}
            Some(Cause::Load) => self.load = more(self.load, 1),
            Some(Cause::Store) => self.store = more(self.store, 1),
            Some(Cause::CommitQueue) => self.commit_queue = more(self.commit_queue, 1),
            Some(Cause::TaskQueue) => self.task_queue = more(self.task_queue, 1),
            Some(Cause::Core) => self.core = more(self.core, 1),
            Some(Cause::Asked) => self.asked = more(self.asked, 1),
        }
    }

    /// Counts a task under a cause, if `holds`.
    pub(crate) fn count_where(&mut self, holds: bool, cause: Option<Cause>)
        ensures { (c : CauseCounts) → self.old ≡ capped_causes c
            → self.new ≡ capped_causes (if holds then one_taken cause c else c) }
    {
        if holds {
            self.count(cause);
        }
    }
}
