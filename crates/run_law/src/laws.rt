//! The laws of runs.

ghost use Rattle.std.specs.Prelude.{ℕ, List};
ghost use Rattle.guest_image.specs.ImageValue.{ImageValue};
ghost use Rattle.run_law.specs.Laws.{AreLawful};
ghost use Rattle.serial_machine.specs.Run.{IsRun};
ghost use Rattle.serial_machine.specs.State.{SerialState};
ghost use Rattle.run_journal.specs.declared.journal.Entry.{Entry};

/// The laws of every run of every image, with any budget of its tasks:
/// - `distinct`: no name takes two turns;
/// - `complete`: only tasks that the image or a turn made take turns, and where no task is pending each of them
///   took one;
/// - `deeper`: a turn from the domain of another task, and all turns between that task's and it, are deeper than
///   that task;
/// - `forced`: where at no turn two tasks of the innermost domain that has any share its least timestamp, the run
///   is the only one of its length.
#[tactic(auto, using(crate::proofs::Lawful::lawful))]
pub fn runs_are_lawful()
    ensures { (image : ImageValue) → (budget : ℕ) → (journal : List Entry) → (state : SerialState)
        → IsRun image budget journal state → AreLawful image budget journal state }
{}
