//! The laws of memory.

ghost use Rattle.memory_law.specs.Notes.{LeavesNoneOut};
ghost use Rattle.memory_law.specs.Laws.{ChainIsReplay, KeyOrderIsOne, LoadKeepsChain, StoreKeepsChain};
ghost use Rattle.memory_law.specs.Laws.{AbortKeepsChain, DispatchKeepsChain, CommitKeepsChain, AllLogsUndoneIsSerial};
ghost use Rattle.memory_law.specs.Laws.{UndispatchedIsChained, IdleTasksKeepChain, LatestFirst, LinesShareNoByte};
ghost use Rattle.memory_law.specs.Laws.{NoConflictIsLeft};

use line_table::Filter;

/// Law: the accesses of the dispatched tasks chain in each byte exactly where their logs, replayed on the serial
/// memory by rising key, make the memory.
pub fn chain_is_replay()
    ensures { ChainIsReplay }
{}

/// Law: the dispatched tasks stand by rising key in one order alone.
pub fn key_order_is_one()
    ensures { KeyOrderIsOne }
{}

/// Law: a load of a line that no later dispatched task wrote keeps the chain.
pub fn load_keeps_chain()
    ensures { LoadKeepsChain }
{}

/// Law: a store to a line that no later dispatched task touched keeps the chain, and memory then has its value.
pub fn store_keeps_chain()
    ensures { StoreKeepsChain }
{}

/// Law: where a set contains, with each member, each later task whose filter reports a line to which the member's log
/// has a store, and it is aborted, the latest first, the other tasks chain to the memory that is left.
pub fn abort_keeps_chain()
    ensures { AbortKeepsChain }
{}

/// Law: where the later dispatched tasks that conflict with an access are aborted, none is left that conflicts with it.
pub fn no_conflict_is_left()
    ensures { NoConflictIsLeft }
{}

/// Law: a dispatch, with an empty log, keeps the chain.
pub fn dispatch_keeps_chain()
    ensures { DispatchKeepsChain }
{}

/// Law: when the least task commits, its log replays on the serial memory, and the other tasks chain from the
/// serial memory that it makes.
pub fn commit_keeps_chain()
    ensures { CommitKeepsChain }
{}

/// Law: a rollback of all tasks, the latest first, leaves the serial memory.
pub fn all_logs_undone_is_serial()
    ensures { AllLogsUndoneIsSerial }
{}

/// Law: where no task is dispatched, the serial memory chains to itself.
pub fn undispatched_is_chained()
    ensures { UndispatchedIsChained }
{}

/// Law: idle tasks that come, go or change keep the chain, as those of a new child, a spill and its return.
pub fn idle_tasks_keep_chain()
    ensures { IdleTasksKeepChain }
{}

/// Law: a set is rolled back by rolling back its latest member, and then the others.
pub fn latest_first()
    ensures { LatestFirst }
{}

/// Law: aligned accesses to two lines share no byte.
pub fn lines_share_no_byte()
    ensures { LinesShareNoByte }
{}

/// Law: a filter whose notes are those of a log leaves out no access of it. `Lines` of each kind are one by their bits.
/// Of a task's filter that asks its log too, `spec_law` says so (`filters_leave_none_out`).
pub fn filter_leaves_none_out<F: Filter>()
    ensures { LeavesNoneOut F.notes_are F.touched F.wrote }
{}
