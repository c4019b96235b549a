//! Tests of the machine's public calls: of the board, and from its state to whole runs and to runs that are saved.
//!
//! They are in a crate of their own, without code, since a crate with tests is proved twice.
#![tactic(auto)]

#[cfg(test)]
mod boards;
#[cfg(test)]
mod books;
#[cfg(test)]
mod machines;
#[cfg(test)]
mod replies;
#[cfg(test)]
mod saved_runs;
#[cfg(test)]
mod scripts;
#[cfg(test)]
mod states;
#[cfg(test)]
mod steps;
#[cfg(test)]
mod whole_runs;
#[cfg(test)]
mod workers;

use machine_run::step_script::conflict_book;
use machine_run::{step_script, tile_worker};
use spec_state::serial_machine;
