//! Laws: the outcome of an event is unique, whatever ids are picked for new tasks. Two books that are the same but for
//! the ids of their tasks (`AreSameBooks`) stay so after one event, after a list of events, after events for the least
//! tasks and after a script that is played to its end; and what they leave when they are closed is the same. If memory
//! stops one of two plays of a script, the other one went the same way up to there. Each law is the contract of a
//! function that does nothing. They depend on the laws of events (`event_law`) and on what the acts of a script do
//! (`step_script`); the laws of runs on the machine (`machine_run`) depend on them, and no code that runs.
#![tactic(auto)]

mod laws;

pub use laws::{
    close_is_one, end_is_alike, events_are_one, front_is_one, least_run_is_one, opening_is_one,
    outcome_is_one, play_is_one, script_is_one, stop_is_one, stops_are_one,
};
pub use step_script;
