//! Laws of what the code of events relies on, and one of what is left of the least task's way. Each is the contract of
//! a function that does nothing.

ghost use Rattle.event_basis.specs.Laws.{TakerStays, BoundFalls, IdleStays, MadeIsSound, RoomIsLeft, VictimMoves};

use rv_core::Naming;

/// In a sound view, what an event forces for a task that takes a leg leaves a sound view, and that task as it
/// was, with its leg and what it asks for.
pub fn taker_stays()
    ensures { TakerStays }
{}

/// What is forced for a core leaves a sound view with a free core, and the least idle task of the tile so, where it is
/// the least task wherever no core is free.
pub fn idle_stays()
    ensures { IdleStays }
{}

/// What makes room in a task queue leaves a sound view with room in it.
pub fn room_is_left()
    ensures { RoomIsLeft }
{}

/// Once a firm victim is aborted for a requester that is the least task, it is an idle firm task of its tile, so that a
/// coalescing may begin.
pub fn victim_moves()
    ensures { VictimMoves }
{}

/// A granted event that is made leaves a sound view.
pub fn made_is_sound<N: Naming>()
    ensures { MadeIsSound N }
{}

/// Each event for the least task but its commit brings the bound of what is left up to that down by one.
pub fn bound_falls<N: Naming>()
    ensures { BoundFalls N }
{}
