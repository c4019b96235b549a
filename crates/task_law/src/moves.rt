//! The events that leave the free tasks as they are, and the placement of the image's tasks, which makes them free.

ghost use Rattle.task_law.specs.Grows.{DispatchKeepsTasks, EnqueueKeepsTasks, NoTasksAreSound, PlacementKeepsTasks};
ghost use Rattle.task_law.specs.Sound.{IdleLeastIsAny};
ghost use Rattle.task_law.specs.Moves.{AbortKeepsTasks, CoalesceKeepsTasks, SplitKeepsTasks};

/// Where no task exists, names are apart, families whole and spilled tasks firm.
pub fn no_tasks_are_sound()
    ensures { NoTasksAreSound }
{}

/// While the least task is not dispatched it does not matter which one it is: no child of it is spilled.
pub fn idle_least_is_any()
    ensures { IdleLeastIsAny }
{}

/// A placement of a task with a committed creator, as the image's tasks have, makes it free beside those that were,
/// and keeps names apart, families whole and spilled tasks firm.
pub fn placement_keeps_tasks()
    ensures { PlacementKeepsTasks }
{}

/// A dispatch of an idle task, which has no child yet, leaves the free tasks as they are, names apart, families
/// whole and spilled tasks firm.
pub fn dispatch_keeps_tasks()
    ensures { DispatchKeepsTasks }
{}

/// An enqueue, by which a dispatched task gets its next child, leaves the free tasks as they are, names apart,
/// families whole and spilled tasks firm.
pub fn enqueue_keeps_tasks()
    ensures { EnqueueKeepsTasks }
{}

/// An abort of any set, whose members with a creator in the set leave and whose other members are idle again,
/// leaves the free tasks as they are, names apart and the children of each dispatched task those that it enqueued.
pub fn abort_keeps_tasks()
    ensures { AbortKeepsTasks }
{}

/// A coalescing, of one or more idle firm tasks that are spilled one after another, leaves the free tasks as they
/// are, names apart, families whole and spilled tasks firm.
pub fn coalesce_keeps_tasks()
    ensures { CoalesceKeepsTasks }
{}

/// A split, by which a spilled task comes back to a queue, leaves the free tasks as they are, names apart, families
/// whole and spilled tasks firm.
pub fn split_keeps_tasks()
    ensures { SplitKeepsTasks }
{}
