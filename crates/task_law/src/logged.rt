//! A task's run by its log is its serial run, where the log replays.

ghost use Rattle.task_law.specs.Logged.{LoggedRunIsTurn, LoggedTrapIsSerial};

/// Where the log of a finished task replays on the serial memory, its turn is the serial machine's: the same
/// stores, children and output.
pub fn logged_run_is_turn()
    ensures { LoggedRunIsTurn }
{}

/// Where the log of a trapped task replays on the serial memory, the serial machine's turn of it ends in the same trap.
pub fn logged_trap_is_serial()
    ensures { LoggedTrapIsSerial }
{}
