//! A run that met its commit limit continues later from an image of what it left.
//!
//! The saved image has the first one's text, the memory that the first run left, and the tasks that are pending after
//! it. A run of it is the rest of the first run: both journals, the second with its names shifted, are one run of the
//! first image.
//!
//! It depends on the book's frozen runs, on the serial machine and on the laws of runs and of pending tasks; the
//! program saves by it, and a library's caller joins. A saved image costs a copy of the text, the memory and the tasks,
//! a joined journal a copy of both.
#![tactic(auto)]

mod fault;
mod joining;
mod saving;

pub use conflict_book::Frozen;
use conflict_book::event_step::event_prelude::event_def::spec_state;
use conflict_book::event_step::event_prelude::event_def::spec_state::serial_machine;
pub use conflict_book::event_step::event_prelude::event_def::spec_state::{Pending, Pendings};
pub use fault::SaveFault;
pub use joining::{join_runs, runs_join};
pub use saving::snapshot;
