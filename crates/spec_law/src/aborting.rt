//! What an abort is to the laws of order, of tasks and of memory, and that it keeps a view sound. Each is the contract
//! of a function that does nothing.

ghost use Rattle.spec_law.specs.AbortLaws.{AbortKeepsHeirOfView, AbortKeepsSoundMemory, AbortKeepsSoundOrder};
ghost use Rattle.spec_law.specs.AbortLaws.{AbortKeepsSoundSizes};
ghost use Rattle.spec_law.specs.AbortLaws.{AbortKeepsSound, AbortKeepsSoundTasks, AbortForRoomIsSound};
ghost use Rattle.spec_law.specs.AbortLaws.{AbortOfConflictsIsSound, AbortOfLaterIsSound, AbortOfOneIsSound};
ghost use Rattle.spec_law.specs.AbortLaws.{CascadeHoldsPulled, CascadeSparesHeir, ConflictsSpareHeir};
ghost use Rattle.spec_law.specs.AbortLaws.{MarkedAreAborted, MarkedAreIdle, MarkedLeaveMemory};

/// A cascade contains, with each task, all that is aborted with it.
pub fn cascade_holds_pulled()
    ensures { CascadeHoldsPulled }
{}

/// To the order of the queued tasks an abort is one of the tasks that it marks.
pub fn marked_are_aborted()
    ensures { MarkedAreAborted }
{}

/// In the bags of pending tasks an abort returns the tasks that it marks to their bags.
pub fn marked_are_idle()
    ensures { MarkedAreIdle }
{}

/// For memory an abort rolls back a set of tasks that contains, with each member, the later tasks that may have read or
/// overwritten what it wrote.
pub fn marked_leave_memory()
    ensures { MarkedLeaveMemory }
{}

/// The group of memory holds after an abort in a sound view, against the same state of the serial machine.
pub fn abort_keeps_sound_memory()
    ensures { AbortKeepsSoundMemory }
{}

/// An abort of another task spares the dispatched least task.
pub fn cascade_spares_heir()
    ensures { CascadeSparesHeir }
{}

/// An abort of all tasks that conflict with an access spares the dispatched least task.
pub fn conflicts_spare_heir()
    ensures { ConflictsSpareHeir }
{}

/// An abort that spares the dispatched least task keeps the order of all uncommitted tasks.
pub fn abort_keeps_sound_order()
    ensures { AbortKeepsSoundOrder }
{}

/// An abort that spares the dispatched least task keeps the group of tasks, against the same state of the serial
/// machine.
pub fn abort_keeps_sound_tasks()
    ensures { AbortKeepsSoundTasks }
{}

/// An abort keeps the group of sizes.
pub fn abort_keeps_sound_sizes()
    ensures { AbortKeepsSoundSizes }
{}

/// An abort that spares the dispatched least task keeps it so, and where no least task is dispatched, none is
/// afterwards.
pub fn abort_keeps_heir_of_view()
    ensures { AbortKeepsHeirOfView }
{}

/// An abort that spares the dispatched least task keeps a view sound, against the same state of the serial machine.
pub fn abort_keeps_sound()
    ensures { AbortKeepsSound }
{}

/// An abort of a task other than the dispatched least one keeps a view sound.
pub fn abort_of_one_is_sound()
    ensures { AbortOfOneIsSound }
{}

/// An abort of all tasks that conflict with an access keeps a view sound.
pub fn abort_of_conflicts_is_sound()
    ensures { AbortOfConflictsIsSound }
{}

/// An abort of a dispatched task that is later than a queued one keeps a view sound.
pub fn abort_of_later_is_sound()
    ensures { AbortOfLaterIsSound }
{}

/// An abort that makes room for the least task keeps a view sound.
pub fn abort_for_room_is_sound()
    ensures { AbortForRoomIsSound }
{}
