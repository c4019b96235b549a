//! What the machine asks of a tap.

ghost use Rattle.std.specs.Prelude.{◌≡◌, length, map, slice_get};
ghost use Rattle.trace_tap.specs.TapValue.{TapValue, after_note};

use crate::record::Record;

/// Notes events, and keeps a list of numbers. No call takes memory.
pub trait Tap: Drop {
    /// The list of the tap, and the rule by which a record changes it.
    ghost notes: { Self → TapValue };

    /// An event was made.
    fn note(&mut self, seen: &Record)
        ensures { notes self.new ≡ after_note seen.now (notes self.old) };

    /// How many numbers the list has.
    fn len(&self) -> u32
        ensures { result ≡ length (notes self.now).list };

    /// The number at a place of the list; none exactly past its end.
    fn at(&self, place: u32) -> Option<u64>
        ensures { result ≡ slice_get (notes self.now).list place };
}

impl Tap for Box<dyn Tap + Send> {
    ghost notes = { λ b. (Tap-box b).notes b.value };

    fn note(&mut self, seen: &Record) {
        (**self).note(seen)
    }

    fn len(&self) -> u32 {
        (**self).len()
    }

    fn at(&self, place: u32) -> Option<u64> {
        (**self).at(place)
    }
}

/// Each of the taps notes an event, in their order. Takes no memory.
pub fn note_all<T: Tap>(taps: &mut [T], seen: &Record)
    ensures { map T.notes taps.new ≡ map (after_note seen.now) (map T.notes taps.old) }
{
    for tap in taps.iter_mut() {
        tap.note(seen);
    }
}
