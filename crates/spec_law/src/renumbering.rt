//! Laws of renumbering. Each is the contract of a function that does nothing.

ghost use Rattle.spec_law.specs.Renumbering.{NumbersAreHeld, NumbersInUseAreFew, RenumberingStaysSound};
ghost use Rattle.spec_law.specs.Renumbering.{RenumberingSaysSame};

/// In a sound view each dispatch number in use is one of the path or that of a dispatched task.
pub fn numbers_are_held()
    ensures { NumbersAreHeld }
{}

/// In a sound view at most `MAX_NUMBERS_IN_USE` dispatch numbers are in use, so a renumbering leaves numbers for
/// the next dispatches.
pub fn numbers_in_use_are_few()
    ensures { NumbersInUseAreFew }
{}

/// A renumbering keeps a view sound, against the same state of the serial machine and with the same dispatched least
/// task.
pub fn renumbering_stays_sound()
    ensures { RenumberingStaysSound }
{}

/// A renumbered view has the same least task, dispatched or not, the same conflicts and cascades, and the same memory
/// once tasks are aborted.
pub fn renumbering_says_same()
    ensures { RenumberingSaysSame }
{}
