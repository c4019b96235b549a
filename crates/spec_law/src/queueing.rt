//! Laws of the events that move tasks between queues and blocks, and to cores. Each is the contract of a function
//! that does nothing.

ghost use Rattle.spec_law.specs.Keeping.{CoalesceStaysSound, DispatchStaysSound, SplitStaysSound};

/// A coalescing keeps a view sound, against the same state of the serial machine.
pub fn coalesce_stays_sound()
    ensures { CoalesceStaysSound }
{}

/// A split, where the task queue has a free place, keeps a view sound.
pub fn split_stays_sound()
    ensures { SplitStaysSound }
{}

/// A dispatch, where a dispatch number is left, keeps a view sound.
pub fn dispatch_stays_sound()
    ensures { DispatchStaysSound }
{}
