//! What the code of an event needs of a sound view.
//!
//! An event finds the causes to refuse it, forces what prevents it, and makes its one change. The proofs here say of a
//! sound view what such code relies on at each point; the laws are the contracts of functions that do nothing and cost
//! nothing. It uses the laws of events and states; the crates of events, the book, `outcome_law`, `watch_play` and
//! `watch_text` cite it.
#![tactic(auto)]

mod laws;

pub use event_law::event_def;
pub use laws::{bound_falls, idle_stays, made_is_sound, room_is_left, taker_stays, victim_moves};
