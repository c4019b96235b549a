//! The commit of the least task is a turn of the serial machine, and its trap is one there.

ghost use Rattle.task_law.specs.Commit.{CommitIsTurn, CommitKeepsTasks, LeastHasTurn};
ghost use Rattle.task_law.specs.Domains.{ContextFits, TurnKeepsDomains};
ghost use Rattle.task_law.specs.Turns.{LeastCommitsSerially, LeastTrapsSerially};

/// Where the free tasks are the pending tasks of the serial bags, the least task may take the next turn.
pub fn least_has_turn()
    ensures { LeastHasTurn }
{}

/// Where a task that may take the next turn commits, the free tasks are the pending tasks of the bags after that turn.
pub fn commit_is_turn()
    ensures { CommitIsTurn }
{}

/// A commit of the least task keeps names apart, families whole and spilled tasks firm.
pub fn commit_keeps_tasks()
    ensures { CommitKeepsTasks }
{}

/// Where the domains of a task have the kinds and floors of the bags, the calls of its serial turn depend on what
/// its own domains say.
pub fn context_fits()
    ensures { ContextFits }
{}

/// A turn keeps the kinds and floors of the domains of the other free tasks, and those of its children's domains are
/// those of bags after it.
pub fn turn_keeps_domains()
    ensures { TurnKeepsDomains }
{}

/// A finished least task whose log replays commits as the serial machine's next turn: the same stores, output and
/// children, and the pending tasks after that turn are the free tasks after the commit.
pub fn least_commits_serially()
    ensures { LeastCommitsSerially }
{}

/// A trapped least task whose log replays on the serial memory may take the serial machine's next turn, and its run
/// there ends in the same trap.
pub fn least_traps_serially()
    ensures { LeastTrapsSerially }
{}
