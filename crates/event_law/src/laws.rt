//! Laws of events. Each is the contract of a function that does nothing.

ghost use Rattle.event_law.specs.Laws.{AdvancesFall, CloseIsSerial, EndIsOne, EndIsSerial, EndIsThere};
ghost use Rattle.event_law.specs.Laws.{EventStaysSound, EventsCountOne, HistoriesAreRuns, EventsJoin};
ghost use Rattle.event_law.specs.Laws.{LeastEventIsGranted, LeastEventsAreFew, NextEventIsGiven, OpeningIsSound};
ghost use Rattle.event_law.specs.Laws.{RefusalsChangeNothing, ReplyIsOne, RestIsBounded, RestIsOne, RestIsThere};

use rv_core::Naming;

/// An event that is not answered `Ok` changes nothing and aborts no task.
pub fn refusals_change_nothing<N: Naming>()
    ensures { RefusalsChangeNothing N }
{}

/// Memory aside, an event has one reply at most: no two causes to refuse it are first, and it is made only
/// where there is none.
pub fn reply_is_one<N: Naming>()
    ensures { ReplyIsOne N }
{}

/// A run ends in one way at most.
pub fn end_is_one()
    ensures { EndIsOne }
{}

/// The number that stands for what is left up to the next commit or the end is at most the task budget and 4.
pub fn rest_is_bounded()
    ensures { RestIsBounded }
{}

/// The opening is sound, of an image within its limits and with valid settings.
pub fn opening_is_sound()
    ensures { OpeningIsSound }
{}

/// Each event keeps a book's view sound, whatever it is answered: one whose tile and core are there, and whose leg
/// is a run of plain instructions of the image.
pub fn event_stays_sound<N: Naming>()
    ensures { EventStaysSound N }
{}

/// From the opening on, of an image within its limits and with valid settings, whatever such events are made and in
/// whatever order, the journal is a run of the serial machine, the output is that run's, and its memory is what an
/// abort of all uncommitted tasks leaves.
pub fn histories_are_runs<N: Naming>()
    ensures { HistoriesAreRuns N }
{}

/// What a closed book leaves is a run of the serial machine, whose memory and output these are.
pub fn close_is_serial()
    ensures { CloseIsSerial }
{}

/// A run that is over ends as the serial machine's run does: nothing is pending, as many tasks took turns as may,
/// or the next task traps so.
pub fn end_is_serial()
    ensures { EndIsSerial }
{}

/// The event for the least task is never refused.
pub fn least_event_is_granted<N: Naming>()
    ensures { LeastEventIsGranted N }
{}

/// Each event for the least task but its commit brings it nearer to that, or to the end of the run.
pub fn advances_fall<N: Naming>()
    ensures { AdvancesFall N }
{}

/// A sound view has a number that stands for what is left: its run is over, or its least task is spilled, idle,
/// running or finished.
pub fn rest_is_there()
    ensures { RestIsThere }
{}

/// A view has one such number at most.
pub fn rest_is_one()
    ensures { RestIsOne }
{}

/// Of each sound view it is decided whether its run is over, and where it is there is exactly one end.
pub fn end_is_there()
    ensures { EndIsThere }
{}

/// An event leaves the count of events, or raises it by one, up to where it stands still.
pub fn events_count_one<N: Naming>()
    ensures { EventsCountOne N }
{}

/// Lists of events, one after the other, are one list, with their answers one after the other.
pub fn events_join<N: Naming>()
    ensures { EventsJoin N }
{}

/// The event for the least task of a sound view may be handed in.
pub fn next_event_is_given<N: Naming>()
    ensures { NextEventIsGiven N }
{}

/// So many events for the least tasks, with what is left up to the next commit, are at most the task budget and 4
/// for each commit among them and one more.
pub fn least_events_are_few<N: Naming>()
    ensures { LeastEventsAreFew N }
{}
