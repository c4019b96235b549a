//! What a run leaves.

ghost use Rattle.std.specs.Prelude.{◌≡◌, true, Some, IfSome};
ghost use Rattle.guest_image.specs.ImageValue.{IsImage};
ghost use Rattle.outcome_law.specs.event_def.Closing.{Closes};
ghost use Rattle.outcome_law.specs.conflict_book.BookViews.{machine_view, view_of};
ghost use Rattle.machine_run.specs.Halted.{IsLeftOf, KeepsPending};
ghost use Rattle.machine_run.specs.Played.{StandsAt};

use crate::conflict_book::Book;
use crate::spec_state::Pendings;
use place_policy::Placer;
use run_journal::{Closed, End};
use rv_core::Naming;
use trace_tap::Tap;

/// A run that was made: what its closed book leaves, and its end; None where memory ran out.
///
/// It isn't `Drop`: whoever is handed a run hands it on, or takes it apart.
pub struct Ran {
    /// What the closed book leaves.
    pub closed: Closed,
    /// The end; `Unfinished` only where a script was played to its end and the run isn't over.
    pub end: Option<End>,
}

/// Closes a book with this end, if one is known: what is left is a run of the serial machine, which has that end too.
pub(crate) fn leave<N: Naming, P: Placer, T: Tap>(book: Book<N, P, T>, end: Option<End>) -> Ran
    requires fits { IsImage N.image }
    requires stands { IfSome end (StandsAt (machine_view book)) }
    ensures closes { Closes (view_of P.policy T.notes book) result.closed }
    ensures end { result.end ≡ end }
    ensures left { IsLeftOf N.image N.commits N.budget result }
{
    book.is_sound();
    Ran {
        closed: book.close(),
        end,
    }
}

/// A run that was made, with the tasks that are pending if it met its commit limit and was to be saved.
pub struct Stopped {
    /// The run.
    pub ran: Ran,
    /// The tasks that are pending after it; None if it did not meet its commit limit, if memory ran out, and if it was
    /// not to be saved.
    pub pending: Option<Pendings>,
}

/// Closes a book that met its commit limit, with the pending tasks. If memory runs out for these, the end is None.
fn freeze<N: Naming, P: Placer, T: Tap>(book: Book<N, P, T>) -> Stopped
    requires fits { IsImage N.image }
    requires stands { StandsAt (machine_view book) End.Limit }
    ensures closes { Closes (view_of P.policy T.notes book) result.ran.closed }
    ensures end { IfSome result.ran.end (λ end. Some End.Limit ≡ Some end) }
    ensures left { IsLeftOf N.image N.commits N.budget result.ran }
    ensures pending { KeepsPending N.image N.budget true result }
{
    book.is_sound();
    match book.freeze() {
        Ok(frozen) => Stopped {
            ran: Ran {
                closed: frozen.closed,
                end: Some(End::Limit),
            },
            pending: Some(frozen.pending),
        },
        Err(book) => Stopped {
            ran: leave(book, None),
            pending: None,
        },
    }
}

/// Closes a book with this end, if one is known, and keeps the pending tasks if it met its commit limit and is to be
/// saved.
pub(crate) fn stop<N: Naming, P: Placer, T: Tap>(
    book: Book<N, P, T>,
    end: Option<End>,
    goes_on: bool,
) -> Stopped
    requires fits { IsImage N.image }
    requires stands { IfSome end (StandsAt (machine_view book)) }
    ensures closes { Closes (view_of P.policy T.notes book) result.ran.closed }
    ensures end { IfSome result.ran.end (λ told. end ≡ Some told) }
    ensures left { IsLeftOf N.image N.commits N.budget result.ran }
    ensures pending { KeepsPending N.image N.budget goes_on result }
{
    match end {
        Some(End::Limit) if goes_on => freeze(book),
        other => Stopped {
            ran: leave(book, other),
            pending: None,
        },
    }
}
