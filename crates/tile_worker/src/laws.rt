//! Laws of readings. Each is the contract of a function that does nothing.

ghost use Rattle.tile_worker.specs.Readings.{OpeningIsReading, SeenAreReadings};

/// Nothing committed and nothing emitted, the first reading of a new board's writer, is a reading of every journal.
#[tactic(auto, using(crate::proofs::Told::opening_is_reading))]
pub fn opening_is_reading()
    ensures { OpeningIsReading }
{}

/// Where all that a writer wrote are readings of a journal, so is all that a reader saw that was joined to it.
pub fn seen_are_readings()
    ensures { SeenAreReadings }
{}
