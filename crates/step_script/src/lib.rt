//! Scripts of the machine: read from a text, one act a line, for a machine of so many tiles with so many cores each,
//! and played on a book, with the reply to each act.
//!
//! Between the acts a player holds the legs that are held back, finds what an act requests, and makes that. It depends
//! on lines of texts and on the book, which it uses by its public calls alone; `machine_run` plays by it, `watch_play`
//! asks and makes act by act with its player, and both programs read by it. Reading takes memory for the acts and time
//! linear in the text. An act costs its event, if it makes one, and the leg that it runs, if it runs one.
//! `script_text`, `watch_text` and `outcome_law` use scripts.
#![tactic(auto)]

mod act;
mod asked;
mod asking;
mod fault;
mod holding;
mod parsing;
mod player;
mod playing;
mod reading;
mod running;
mod saying;

pub use act::Act;
pub use asked::Asked;
pub use conflict_book;
use conflict_book::event_step::event_prelude;
use conflict_book::event_step::event_prelude::event_def;
use conflict_book::event_step::event_prelude::event_def::spec_state;
pub use fault::ScriptFault;
pub use player::Player;
pub use playing::play;
pub use reading::{read_script, written_scripts_read_back};
pub use saying::{Said, Word};
