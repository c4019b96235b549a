//! A board on which one writer reports how far a run has come, and from which any number of readers see it without a
//! lock around the run.
//!
//! A report is a reading: two numbers, neither of which ever falls. Contracts see the list of all readings that the
//! writer wrote, and for each reader the list of all that it saw. A reader never goes back. Once it is joined to the
//! writer, the caller knows that whatever it saw was written, in this order. Not promised is that a reader sees each
//! reading, or how fresh one is.
//!
//! It uses the ruled cell of two words of `crossbeam_utils`; `specs/Rule` says what always holds of the words and of
//! what is known of them, and `specs/Steps` what each operation does. `tile_worker` reports a run on it
//! (`run_watched`), for a library's caller that follows the run from a thread of its own; no command does. The book
//! returns its counts as a `Reading`.
//!
//! `Board::new` alone allocates memory. But for it and `Writer::last`, a call makes 1 to 7 atomic operations on the
//! words where no other call comes between. `publish` takes the words' own lock for these operations, and so does a
//! `read` or a `join` that was overtaken by it; they wait for each other's operations and for nothing else. The lock
//! serves 2^63 readings, more than any run makes; who takes it after those waits for ever.
#![tactic(auto)]

mod board;
mod reading;
mod steps;
mod view;

pub use board::{Board, Reader, Writer};
pub use reading::Reading;
