//! Work, in instructions.

ghost use Rattle.std.specs.Prelude.{◌≡◌, ◌+◌};
ghost use Rattle.watch_counts.specs.Nothing.{no_work};
ghost use Rattle.watch_counts.specs.Capped.{capped_work};
ghost use Rattle.watch_counts.specs.Work.{instructions, refused_leg};

use crate::numbers::more;
use task_request::Request;

/// The instructions of tasks.
#[derive(Clone, Copy, Debug, PartialEq, Eq)]
pub struct WorkCounts {
    /// Those of all steps that were made.
    pub executed: u64,
    /// Those of tasks that committed, since their last dispatch.
    pub useful: u64,
    /// The instructions of tasks that were aborted.
    pub wasted: u64,
    /// The legs of steps that were refused: no part of those above.
    pub refused: u64,
}

/// The instructions of a step that is made: those of its leg and one more, unless it goes on or traps.
fn instructions(steps: u32, request: Option<Request>) -> u64
    ensures { result ≡ instructions steps request }
{
    let steps = u64::from(steps);
    match request {
        None => 0,
        Some(Request::Continue) => steps,
        Some(Request::Trap { .. }) => steps,
        Some(Request::Load { .. }) => steps + 1,
        Some(Request::Store { .. }) => steps + 1,
        Some(Request::Enqueue(_)) => steps + 1,
        Some(Request::MakeSub(_)) => steps + 1,
        Some(Request::Emit(_)) => steps + 1,
        Some(Request::End) => steps + 1,
    }
}

/// Those of a step that is refused: its leg, where its task takes it.
fn refused_leg(steps: u32, request: Option<Request>) -> u64
    ensures { result ≡ refused_leg steps request }
{
    match request {
        None => 0,
        Some(_) => u64::from(steps),
    }
}

impl WorkCounts {
    /// None.
    pub(crate) fn none() -> Self
        ensures { result ≡ no_work }
    {
        WorkCounts {
            executed: 0,
            useful: 0,
            wasted: 0,
            refused: 0,
        }
    }

    /// A step that is made.
    pub(crate) fn count_step(&mut self, steps: u32, request: Option<Request>)
        ensures { (c : WorkCounts) → self.old ≡ capped_work c
            → self.new ≡ capped_work (record c { executed = c.executed + instructions steps request }) }
    {
        self.executed = more(self.executed, instructions(steps, request));
    }

    /// A step that is refused.
    pub(crate) fn count_refused(&mut self, steps: u32, request: Option<Request>)
        ensures { (c : WorkCounts) → self.old ≡ capped_work c
            → self.new ≡ capped_work (record c { refused = c.refused + refused_leg steps request }) }
    {
        self.refused = more(self.refused, refused_leg(steps, request));
    }

    /// A commit of a task of so many instructions.
    pub(crate) fn count_useful(&mut self, used: u32)
        ensures { (c : WorkCounts) → self.old ≡ capped_work c
            → self.new ≡ capped_work (record c { useful = c.useful + used }) }
    {
        self.useful = more(self.useful, u64::from(used));
    }

    /// Counts a task of `used` instructions that was aborted.
    pub(crate) fn count_wasted(&mut self, used: u32)
        ensures { (c : WorkCounts) → self.old ≡ capped_work c
            → self.new ≡ capped_work (record c { wasted = c.wasted + used }) }
    {
        self.wasted = more(self.wasted, u64::from(used));
    }
}
