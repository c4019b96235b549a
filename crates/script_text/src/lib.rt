//! The text of the replies to the acts of a script, and of what taps saw: written line by line without allocating. Each
//! line is one piece for the sink, with its newline, and costs its digits. It depends on sinks, on the lines of
//! `report_text`, and on the types of scripts; the program calls it.
#![tactic(auto)]

mod line;
mod replies;
mod traces;

pub use replies::write_replies;
pub use report_text;
pub use step_script;
use step_script::conflict_book::event_step::event_prelude::event_def;
pub use traces::write_trace;
