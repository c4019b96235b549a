//! What both programs are called with and what they return: arguments, placers, taps, a source and a sink; an outcome
//! with its status and the run that it holds. It has the front end of both: how the arguments of a process and the
//! input are read, up to the image, how a call without an image is reported, and what an answer of either program
//! means.
//!
//! Contracts of both programs are stated over one `Call`, and over what a program does with an image (`Program`). It
//! depends on images, on the serial machine, whose run an outcome holds, and on its laws, on streams, and on placers
//! and taps; `fractal_sim` and `fractal_watch` call it. It costs a look at each byte of the input, and the line that it
//! writes.
#![tactic(auto)]

mod input;
mod outcome;
mod process;
mod statuses;
mod telling;

pub use input::{FrontFault, INPUT_LIMIT, Opened, read_input};
pub use outcome::Outcome;
pub use process::{exit_code, process_words, texts_of};
use run_law::serial_machine;
pub use statuses::{
    DONE, IMAGE_FAULT, LIMIT, LONG, NESTED, NO_MEMORY, REPORT_FAULT, SCRIPT_FAULT, SINK_FAULT,
    SOURCE_FAULT, TOO_MANY, TRAP, USAGE,
};
pub use telling::tell_line;
