//! The dispatch: the least idle task of a tile goes to its lowest free core with the next dispatch number. Where all
//! numbers are given, those in use are renumbered first.
//!
//! It uses the state of the machine, whose lists, index and tasks it changes. `dispatch` finds the task to dispatch;
//! `dispatch_task` gets it from a caller that knows. `free_core` returns a free core. `event_move` and the book call
//! it. A dispatch costs a look at each core of its tile and one change of the index, and by `dispatch` also a look at
//! each task of the tile's queue; a renumbering costs a walk over all tasks and a sort of the numbers in use. No call
//! allocates memory: the state keeps memory for the table of a renumbering.
#![tactic(auto)]

mod cores;
mod dispatching;
mod placing;
mod renumbering;
mod table;

pub use cores::free_core;
pub use dispatching::{dispatch, dispatch_task};
