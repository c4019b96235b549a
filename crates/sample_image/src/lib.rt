//! Programs that the tests of several crates run.
//!
//! A program is its words, its data and its tasks; to make its image takes time and memory in proportion to them.
//! It stands on the image; only tests call it.
#![tactic(auto)]

mod making;
mod program;

pub use making::image_of;
pub use program::{FIRST_MAKER, MAKER_TEXT, Program, READER_AND_WRITER};
