//! The law of what pends.

ghost use Rattle.pending_law.specs.Laws.{PendingsAreSerial};

/// Law: the tasks that pend in a sound view, sorted by their names, are those of the serial machine's bags after the
/// journal. No code calls it.
pub fn pendings_are_serial()
    ensures { PendingsAreSerial }
{}
