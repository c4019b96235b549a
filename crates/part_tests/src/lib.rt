//! Tests of public calls of the crates from memory up to the report and the words of a command line.
//!
//! They have a crate of their own, because a crate with tests is proved twice. It has no code but tests.
#![tactic(auto)]

#[cfg(test)]
mod arbiter;
#[cfg(test)]
mod blocks;
#[cfg(test)]
mod cascades;
#[cfg(test)]
mod cores;
#[cfg(test)]
mod descriptors;
#[cfg(test)]
mod generated_images;
#[cfg(test)]
mod image_bytes;
#[cfg(test)]
mod images;
#[cfg(test)]
mod instructions;
#[cfg(test)]
mod journals;
#[cfg(test)]
mod lines;
#[cfg(test)]
mod logs;
#[cfg(test)]
mod placers;
#[cfg(test)]
mod queues;
#[cfg(test)]
mod reports;
#[cfg(test)]
mod requests;
#[cfg(test)]
mod samples;
#[cfg(test)]
mod sending;
#[cfg(test)]
mod serial_runs;
#[cfg(test)]
mod spares;
#[cfg(test)]
mod streams;
#[cfg(test)]
mod taps;
#[cfg(test)]
mod texts;
#[cfg(test)]
mod virtual_times;
#[cfg(test)]
mod words;

use command_line::spec_state;
use command_line::spec_state::serial_machine;
