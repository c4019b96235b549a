//! An image is run on the speculative machine, or a script is played on it: from the opening to what the closed book
//! leaves. It depends on the book, on scripts and on workers; the program calls it. It costs its events, an opening and
//! a close.
#![tactic(auto)]

mod laws;
mod left;
mod lists;
mod playing;
mod running;

pub use laws::{played_run_is_one, traced_run_is_one};
pub use left::{Ran, Stopped};
pub use outcome_law::step_script;
use outcome_law::step_script::conflict_book;
use outcome_law::step_script::conflict_book::event_step::event_prelude::event_def::spec_state;
use outcome_law::step_script::conflict_book::event_step::event_prelude::event_def::spec_state::serial_machine;
pub use playing::{Played, Traced, play_script, trace_script};
pub use running::{run, run_to_save};
pub use tile_worker;
