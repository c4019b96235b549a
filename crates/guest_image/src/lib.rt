//! The image of a guest program: a program, its data and its initial tasks.
//!
//! An image is read from bytes or made of given values, under the same limits, and written as bytes. It keeps the
//! values as they are. Reading and writing take time and memory in proportion to the bytes; to make one of given
//! values moves them and takes no memory, and a word of the text is fetched by one look at its place. It stands on
//! nothing; both machines, reports, both programs and all that makes images call it.
#![tactic(auto)]

mod fault;
mod image;
mod layout;
mod limits;
mod memory_map;
mod reading;
mod writing;

pub use fault::ImageFault;
pub use image::{Image, ImageTask, Kind};
pub use limits::MAX_TASKS;
pub use memory_map::{DATA_START, STACK_BYTES, STACK_START, TEXT_START};
pub use reading::read_image;
pub use writing::{write_image, written_images_read_back};
