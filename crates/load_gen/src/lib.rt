//! Generated images: guest programs with data and initial tasks that are made of a seed and a size.
//!
//! A load is a fixed program, written as instructions and encoded when an image is made, with data and tasks by rules
//! from the seed and the size. To make an image takes time and memory in proportion to its size. It stands on the
//! image and the instruction table; the program and a bench call it, and `command_line` has its type of loads.
#![tactic(auto)]

mod assembly;
mod laws;
mod making;
mod nest;
mod walk;

pub use laws::{texts_are_the_programs, third_edges_lead_no_deeper};
pub use making::{Load, make};
