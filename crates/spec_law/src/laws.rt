//! Laws of sound views. Each is the contract of a function that does nothing.

ghost use Rattle.spec_law.specs.Laws.{AllUndoneIsSerial, CascadeIsLater, ConflictsSpareAsker, LeastIsNext};
ghost use Rattle.spec_law.specs.Laws.{LeastIsOne, LeastSpilledIsNext, SpilledAreFirm, UndoAllIsSerial};

/// There is one least task at most: keys decide, and where they tie, the places at which the tasks stand.
pub fn least_is_one()
    ensures { LeastIsOne }
{}

/// In a sound view the least task, where it is queued, is firm: its creator has committed. It is in the innermost bag
/// of the serial machine that contains a task, with a least timestamp there, and so may take the next turn.
pub fn least_is_next()
    ensures { LeastIsNext }
{}

/// In a sound view the least task, where it is spilled, may take the serial machine's next turn: its creator has
/// committed.
pub fn least_spilled_is_next()
    ensures { LeastSpilledIsNext }
{}

/// In a sound view each spilled task is firm, and has the name of a firm task.
pub fn spilled_are_firm()
    ensures { SpilledAreFirm }
{}

/// In a sound view the cascade of a task holds, beside it, later tasks alone.
pub fn cascade_is_later()
    ensures { CascadeIsLater }
{}

/// In a sound view the cascades that are aborted for an access never contain the task that makes it.
pub fn conflicts_spare_asker()
    ensures { ConflictsSpareAsker }
{}

/// In a sound view, a rollback of all uncommitted tasks, the latest first, leaves the serial machine's memory after the
/// journal.
pub fn all_undone_is_serial()
    ensures { AllUndoneIsSerial }
{}

/// In a sound view, an abort of all uncommitted tasks leaves the serial machine's memory and output after the journal.
pub fn undo_all_is_serial()
    ensures { UndoAllIsSerial }
{}
