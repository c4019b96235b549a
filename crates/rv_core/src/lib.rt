//! The core of a task and its runs of plain instructions: those that touch registers, the stack and, by a load, the
//! text. A run goes on until a load from the data, a store to the data, a call, a trap or its quantum stands next. It
//! changes one core in place, at 16 to 23 machine instructions for each plain instruction of the guest on decoded text,
//! and at more where each word is decoded anew; only `Decoded::new` takes memory. It stands on the instruction table,
//! the image and `undo_log`; both machines, requests, scripts, workers, `watch_text` and a bench call it.
#![tactic(auto)]

mod decoded;
mod laws;
mod legs;
mod naming;
mod noted;
mod op;
mod state;

pub use decoded::{Decoded, run_decoded};
pub use laws::{a_leg_keeps_the_stack_of_version_1, no_address_reaches_a_stack};
pub use legs::{
    after_load, after_other, run_plain, run_plain_within, width_of_load, width_of_store,
};
pub use naming::{Leg, Naming, run_leg, run_leg_decoded};
pub use noted::NotedCore;
pub use state::{Core, Plain, Stop};
