//! Host threads that drive a book: each worker makes events for its own tiles under a lock, and computes its legs
//! outside it.
//!
//! Worker `w` of `n` drives the tiles `t` with `t % n == w`. In each hold of the lock it makes at most one event,
//! counts that to its share, and copies the core of its next legs. The type of the lock's value keeps that all shares
//! together are the book's events.
//!
//! With a board, the workers report how far the run has come (`run_watched`): in the hold in which a task was
//! committed, and once more at the end. The type of the lock's value then keeps that all reports are readings of the
//! book's journal, the last one its counts.
//!
//! It uses the book, the board and the lock of the standard library; `machine_run` calls it, with no board. A hold
//! costs one event and a look at each core of the worker's own tiles, and with a board, after a commit, what it costs
//! to write a reading. Where no thread can be started, the caller runs the workers itself. The program hands in the
//! `Gate` that a worker passes before it hands in a leg.
//!
//! `working` is a worker's loop, `hold` what it does in a hold, `waiting` how it waits for one. From hold to hold it
//! carries (`carried`) its share, the legs that it computes (`errand`) and what it keeps for itself (`round`). The lock
//! has a book with its ledger (`tally`), for `run_tiles` in a type that keeps what it began with (`begun`), for
//! `run_watched` beside the board's writer (`followed`). `crew` is what the workers of a run have in common, `fanning`
//! their threads.
#![tactic(auto)]

mod begun;
mod carried;
mod crew;
mod errand;
mod fanning;
mod followed;
mod gate;
mod hold;
mod laws;
mod locks;
mod round;
mod running;
mod shares;
mod tally;
mod waiting;
mod watching;
mod working;

use conflict_book::event_step::event_prelude::event_def::spec_state;
pub use gate::{Gate, OpenGate};
pub use laws::{opening_is_reading, seen_are_readings};
pub use running::{Drained, run_tiles};
pub use shares::Shares;
pub use tally::{Part, Tallied};
pub use watching::{Watched, run_watched};
pub use working::work;
