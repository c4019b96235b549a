//! A quantum, a trap, a call for a subdomain, a call that emits a byte and an end call keep a sound view sound. Each
//! law is the contract of a function that does nothing.

ghost use Rattle.spec_law.specs.Keeping.{ByteStaysSound, EndStaysSound, QuantumStaysSound, SubStaysSound};
ghost use Rattle.spec_law.specs.Keeping.{TrapStaysSound};

/// A leg that did its quantum keeps a view sound.
pub fn quantum_stays_sound()
    ensures { QuantumStaysSound }
{}

/// A trap, or a call that traps, keeps a view sound.
pub fn trap_stays_sound()
    ensures { TrapStaysSound }
{}

/// A call that makes a subdomain keeps a view sound.
pub fn sub_stays_sound()
    ensures { SubStaysSound }
{}

/// A call that emits a byte keeps a view sound.
pub fn byte_stays_sound()
    ensures { ByteStaysSound }
{}

/// An end call, where the commit queue has a free place, keeps a view sound.
pub fn end_stays_sound()
    ensures { EndStaysSound }
{}
