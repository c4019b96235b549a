//! The events of the speculative machine: their types, which reply each gets and what it changes.
//!
//! The definitions say what contracts see of a book of events (`BookView`), why an event is refused (`Cause`), what it
//! does where it is granted (`Makes`), both with the reply (`Happens`), the opening, the events of the least task, how
//! a run ends and what a closed book leaves. No item here is a call. It uses the state's definitions, placers and taps;
//! the laws of events, all code of events, scripts and their text, workers, runs and `fractal_watch` cite it.
#![tactic(auto)]

mod event;

pub use event::{Advance, Applied, Came, Event, Halt, Reply};
pub use run_journal::Closed;
pub use spec_state;
use spec_state::serial_machine;
