//! The laws of events: whatever happens keeps a book sound, and so every journal is a run of the serial machine.
//!
//! Each law is the contract of a function that does nothing and costs nothing. The book, `event_basis`,
//! `outcome_law`, workers, runs and `watch_play` stand on them. It stands on the words of events and on the laws of
//! states.
#![tactic(auto)]

mod laws;

pub use event_def;
pub use laws::{
    advances_fall, close_is_serial, end_is_one, end_is_serial, end_is_there, event_stays_sound,
    events_count_one, events_join, histories_are_runs, least_event_is_granted,
    least_events_are_few, next_event_is_given, opening_is_sound, refusals_change_nothing,
    reply_is_one, rest_is_bounded, rest_is_one, rest_is_there,
};
