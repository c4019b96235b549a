//! What a run of a machine leaves: the journal of the tasks that took their turns, how it ended, and lists of bytes.
//!
//! Both machines, the serial one and the speculative one, hand out these types, and reports are written from them.
//! An entry is plain `Copy` data; a list is a `Vec` that contracts see as its items alone, and only to add an item
//! takes memory. It stands on task names and spare memory.
#![tactic(auto)]

mod closed;
mod end;
mod items;
mod journal;

pub use closed::Closed;
pub use end::End;
pub use items::Items;
pub use journal::{Bytes, Entry, Journal};
