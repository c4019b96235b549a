//! Why steps and splits stalled.

ghost use Rattle.std.specs.Prelude.{◌≡◌, ◌+◌};
ghost use Rattle.watch_counts.specs.Nothing.{no_stalls};
ghost use Rattle.watch_counts.specs.Capped.{capped_stalls};
ghost use Rattle.watch_counts.specs.Kinds.{one_stalled_step};

use crate::numbers::more;
use task_request::Request;

/// How many steps and splits stalled.
#[derive(Clone, Copy, Debug, PartialEq, Eq)]
pub struct StallCounts {
    /// Steps that asked for a child, for a task queue.
    pub task_queue: u64,
    /// Steps that asked for the end, for the commit queue.
    pub commit_queue: u64,
    /// Splits.
    pub splits: u64,
}

impl StallCounts {
    /// None.
    pub(crate) fn none() -> Self
        ensures { result ≡ no_stalls }
    {
        StallCounts {
            task_queue: 0,
            commit_queue: 0,
            splits: 0,
        }
    }

    /// One more step, by what its task asks for.
    pub(crate) fn count_step(&mut self, request: Option<Request>)
        ensures { (c : StallCounts) → self.old ≡ capped_stalls c
            → self.new ≡ capped_stalls (one_stalled_step request c) }
    {
        match request {
            None => {}
            Some(Request::Enqueue(_)) => self.task_queue = more(self.task_queue, 1),
            Some(Request::End) => self.commit_queue = more(self.commit_queue, 1),
            Some(Request::Continue) => {}
            Some(Request::Load { .. }) => {}
            Some(Request::Store { .. }) => {}
            Some(Request::MakeSub(_)) => {}
            Some(Request::Emit(_)) => {}
            Some(Request::Trap { .. }) => {}
        }
    }

    /// One more split.
    pub(crate) fn count_split(&mut self)
        ensures { (c : StallCounts) → self.old ≡ capped_stalls c
            → self.new ≡ capped_stalls (record c { splits = c.splits + 1 }) }
    {
        self.splits = more(self.splits, 1);
    }
}
