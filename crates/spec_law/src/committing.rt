//! That a commit is a turn of the serial machine. The law is the contract of a function that does nothing.

ghost use Rattle.spec_law.specs.Keeping.{CommitIsSoundTurn};

/// In a sound view, while fewer tasks have committed than may, the commit of a finished least task is the serial
/// machine's next turn, and leaves a view that is sound against the state after it.
pub fn commit_is_sound_turn()
    ensures { CommitIsSoundTurn }
{}
