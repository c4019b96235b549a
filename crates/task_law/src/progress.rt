//! How far the least task is from its commit.

ghost use Rattle.task_law.specs.Advance.{AdvancesAreFew, EventsAdvance};

/// Each event for the least task, a commit aside, brings it nearer to its commit or the end: what is left falls.
pub fn events_advance()
    ensures { EventsAdvance }
{}

/// At most `budget + 3` events for the least task come before its commit or the end of the run.
pub fn advances_are_few()
    ensures { AdvancesAreFew }
{}
