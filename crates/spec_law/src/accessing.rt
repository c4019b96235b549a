//! A load or a store with which no task conflicts, and an enqueue that is allowed, keep a view sound. Each is the
//! contract of a function that does nothing.

ghost use Rattle.spec_law.specs.Keeping.{EnqueueStaysSound, LoadStaysSound, StoreStaysSound};

/// A load with which no task conflicts keeps a view sound.
pub fn load_stays_sound()
    ensures { LoadStaysSound }
{}

/// A store with which no task conflicts keeps a view sound.
pub fn store_stays_sound()
    ensures { StoreStaysSound }
{}

/// An enqueue that is allowed, to a tile whose task queue has a free place, keeps a view sound.
pub fn enqueue_stays_sound()
    ensures { EnqueueStaysSound }
{}
