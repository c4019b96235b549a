//! The laws.

ghost use Rattle.rounds_law.specs.GettingOn.{ForcedGetsOn, RoundsDispatch, RoundsGetOn};

use rv_core::Naming;

/// From a sound book, whatever queues are full, advances of which none commits are no more than the budget and 4, less
/// what is left of the way to the next commit or the end: so as many as that commit the next task or end the run, want
/// of memory aside. An unsound view may have no least task, and a stopped book advances to no end.
pub fn forced_gets_on<N: Naming>()
    ensures { ForcedGetsOn N }
{}

/// In a story in rounds no more rounds in a row than M commit no task and end while the least task waits: of each
/// M + 1 rounds one commits a task, or ends with the least task dispatched, or with the run. M is one at least, since
/// after each round at least none in a row was starved.
pub fn rounds_dispatch<N: Naming>()
    ensures { RoundsDispatch N }
{}

/// From a sound book at most M + budget + 3 rounds end for each commit, and as many again, in any order of rounds and
/// whatever queues are full: M starved rounds, the one that advances the least task, and budget + 2 in which that is
/// dispatched, each of which brings it nearer to its commit. So this many rounds bring a commit or the end of the run,
/// unless memory runs out. M is at least 1.
pub fn rounds_get_on<N: Naming>()
    ensures { RoundsGetOn N }
{}
