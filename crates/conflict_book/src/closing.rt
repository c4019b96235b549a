//! The end of a book.

ghost use Rattle.std.specs.Prelude.{◌≡◌};
ghost use Rattle.event_step.specs.spec_law.Sound.{Sound};
ghost use Rattle.event_step.specs.spec_state.Aborts.{UndoesAll};
ghost use Rattle.event_step.specs.event_def.Book.{BookView};
ghost use Rattle.event_step.specs.event_def.Closing.{Closes};
ghost use Rattle.conflict_book.specs.Left.{LeavesLawfulRun};
ghost use Rattle.conflict_book.specs.BookViews.{view_of};

use crate::book::{Book, SoundState};
use crate::event_def::Closed;
use crate::spec_rollback::undo_all;
use crate::spec_state::State;
use place_policy::Placer;
use rv_core::Naming;
use trace_tap::Tap;

/// Takes all uncommitted tasks of a sound state back.
fn undo<N: Naming>(state: &mut State<N>)
    requires { Sound N.image state.old.view }
    ensures { UndoesAll state.old.view state.new.view }
{
    undo_all(state);
}

/// What a sound state leaves once its uncommitted tasks are aborted.
fn close_state<N: Naming>(sound: SoundState<N>) -> Closed
    ensures closes { (book : BookView) → book.view ≡ sound.view → book.steps ≡ sound.steps
        → Closes book result }
    ensures sound { Sound N.image sound.view }
{
    let SoundState {
        mut state,
        steps,
        ..
    } = sound;
    undo(&mut state);
    let parts = state.into_parts();
    Closed {
        journal: parts.journal,
        memory: parts.memory,
        output: parts.output,
        steps,
    }
}

impl<N: Naming, P: Placer, T: Tap> Book<N, P, T> {
    /// The committed tasks, with their memory and output, once all other tasks are aborted: a run of the serial
    /// machine. It allocates no memory.
    pub fn close(self) -> Closed
        ensures closes { Closes (view_of P.policy T.notes self) result }
        ensures run { let book = view_of P.policy T.notes self in
            LeavesLawfulRun N.image book.view.settings.budget result }
    {
        close_state(self.sound)
    }
}
