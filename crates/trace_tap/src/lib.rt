//! Taps: observers of every event that is made.
//!
//! A tap is a list of numbers, which it changes by a rule of its own for each record that it gets; no call changes that
//! rule. The list is read number by number. `LastN` keeps the last records in a ring, and `LineProfile` counts aborts
//! by memory line; both allocate all their memory when they are made, and each call costs a few machine instructions.
//! It uses `circular_buffer` of the toolchain library; events make the records, the book passes them to the taps that
//! it is handed, and the program makes two, a bench one.
#![tactic(auto)]

mod last_n;
mod line_profile;
mod record;
mod tap;

pub use last_n::LastN;
pub use line_profile::LineProfile;
pub use record::{Deed, Record};
pub use tap::{Tap, note_all};
