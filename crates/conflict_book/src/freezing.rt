//! A book that is left for a run that goes on.

ghost use Rattle.std.specs.Prelude.{◌≡◌, ◌≤◌, length, IfOk, IfErr, IsPermutation};
ghost use Rattle.std.specs.List.Sorted.{IsSortedBy};
ghost use Rattle.event_step.specs.spec_state.Pendings.{pending_before, pendings_in};
ghost use Rattle.event_step.specs.event_def.Closing.{Closes};
ghost use Rattle.conflict_book.specs.Frozen.{IsFrozenOf};
ghost use Rattle.conflict_book.specs.BookViews.{view_of};

use crate::book::{Book, SoundState};
use crate::event_def::Closed;
use crate::serial_machine::MAX_COMMITS;
use crate::spec_state::Pendings;
use place_policy::Placer;
use rv_core::Naming;
use std::alloc::AllocError;
use trace_tap::Tap;

/// What a stopped run leaves for one that goes on.
#[derive(Drop)]
pub struct Frozen {
    /// What the run leaves in any case.
    pub closed: Closed,
    /// The tasks that pend after it.
    pub pending: Pendings,
}

/// The tasks that pend in a sound state.
fn pending_in<N: Naming>(sound: &SoundState<N>) -> Result<Pendings, AllocError>
    ensures held { IfOk result (IsPermutation (pendings_in sound.now.view)) }
    ensures sorted { IfOk result (IsSortedBy pending_before) }
{
    sound.state().pending()
}

impl<N: Naming, P: Placer, T: Tap> Book<N, P, T> {
    /// What `close` leaves, with the tasks that pend after it, sorted by their names: all that a later run needs.
    ///
    /// The book is handed back as it was where memory runs out.
    pub fn freeze(self) -> Result<Frozen, Book<N, P, T>>
        ensures closes { IfOk result (λ frozen. Closes (view_of P.policy T.notes self) frozen.closed) }
        ensures frozen { let book = view_of P.policy T.notes self in
            IfOk result (IsFrozenOf N.image book.view.settings.budget) }
        ensures few { IfOk result (λ frozen. length frozen.closed.journal ≤ MAX_COMMITS) }
        ensures back { IfErr result (λ book. view_of P.policy T.notes book ≡ view_of P.policy T.notes self) }
    {
        self.sound.is_sound();
        match pending_in(&self.sound) {
            Ok(pending) => Ok(Frozen {
                closed: self.close(),
                pending,
            }),
            Err(_) => Err(self),
        }
    }
}
