//! The words of a command line: a command, options in any order, and further words. It stands on the machine's
//! settings, on `text_lines`, and on `load_gen`, whose kinds of images it names; both programs call it. The words
//! are split by `clap`, whose help and version are switched off; which texts are numbers, and in which ranges, is
//! tested here. Reading takes memory for what `clap` keeps of the words.
#![tactic(auto)]

mod number;
mod reading;
mod request;
mod splitting;

pub use number::number_between;
pub use reading::read_words;
pub use request::{Command, Refusal, Request};
pub use spec_state;
