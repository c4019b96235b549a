//! Lines of JSON that report what acts do to a machine: what each asks for, the reply, and what changed, with the tasks
//! that were aborted, discarded and spilled; and the lines around them, of the opening, of a whole view and of the end.
//!
//! A line is put together in one text: the part before the event from what the act asked for, the part after it from
//! readers of the state and from the event's effect, which lists what it did beside its one change. It costs what it
//! writes. It uses scripts and the readers of the machine; `watch_play` calls it, and `fractal_watch` for the last
//! line.
#![tactic(auto)]

mod about;
mod answer;
mod change;
mod end;
mod fields;
mod front;
mod head;
mod items;
mod own;
mod placed;
mod rest;
mod view;
mod words;

pub use about::{About, about_of, about_taken};
pub use answer::Answer;
pub use end::put_end;
pub use front::put_front;
pub use head::{CourseWord, put_head};
pub use placed::put_placed;
pub use rest::put_rest;
pub use script_text::step_script;
use script_text::step_script::conflict_book;
use script_text::step_script::conflict_book::event_step;
use script_text::step_script::conflict_book::event_step::event_prelude::event_def;
use script_text::step_script::conflict_book::event_step::event_prelude::event_def::spec_state;
use script_text::step_script::conflict_book::event_step::event_prelude::event_def::spec_state::serial_machine;
pub use view::put_view;
