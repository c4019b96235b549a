//! Laws of views and books that are alike. Each is the contract of a function that does nothing.

ghost use Rattle.outcome_law.specs.Laws.{CloseIsOne, EndIsAlike, EventsAreOne, LeastRunIsOne, OutcomeIsOne};
ghost use Rattle.outcome_law.specs.Laws.{OpeningIsOne, PlayIsOne, ScriptIsOne};
ghost use Rattle.outcome_law.specs.Stops.{FrontIsOne, StopIsOne, StopsAreOne};

use rv_core::Naming;

/// Views that are alike have the same ends.
pub fn end_is_alike()
    ensures { EndIsAlike }
{}

/// The outcome of one event on sound books that are alike is unique, unless memory runs out.
pub fn outcome_is_one<N: Naming>()
    ensures { OutcomeIsOne N }
{}

/// Equal events on sound books that are alike have the same answers and leave books that are alike, unless memory runs
/// out.
pub fn events_are_one<N: Naming>()
    ensures { EventsAreOne N }
{}

/// So many events for the least tasks leave books that are alike.
pub fn least_run_is_one<N: Naming>()
    ensures { LeastRunIsOne N }
{}

/// What closed books leave that are alike is the same.
pub fn close_is_one()
    ensures { CloseIsOne }
{}

/// The acts of a script that is played to its end have the same replies, and the books that it leaves are alike.
pub fn play_is_one<N: Naming>()
    ensures { PlayIsOne N }
{}

/// Two openings of an image with the same settings, placers and taps are alike.
pub fn opening_is_one()
    ensures { OpeningIsOne }
{}

/// A script that is played to its end from the opening on has the same replies and result each time.
pub fn script_is_one<N: Naming>()
    ensures { ScriptIsOne N }
{}

/// A play of some acts, and one of the same acts followed by others, agree up to there.
pub fn front_is_one<N: Naming>()
    ensures { FrontIsOne N }
{}

/// A play that memory stopped agrees up to there with one of the same script that reached its end.
pub fn stop_is_one<N: Naming>()
    ensures { StopIsOne N }
{}

/// Two plays of one script that memory stopped agree as far as both got.
pub fn stops_are_one<N: Naming>()
    ensures { StopsAreOne N }
{}
