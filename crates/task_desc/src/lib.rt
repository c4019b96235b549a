//! Task descriptors, which calls a task may make, and the record of a spilled task. Plain `Copy` data and pure
//! functions: a call is allowed by a few comparisons with a `Ctx`, and a record is 64 bytes written or read once.
//! No call takes memory. It stands on the image's kinds; `task_request` and the spill store call it; both machines,
//! journals and reports have its data.
#![tactic(auto)]

mod calls;
mod desc;
mod record;

pub use calls::{MAX_BYTES, MAX_CHILDREN, MAX_DEPTH, allow, allow_byte, allow_sub};
pub use desc::{Ctx, Desc, Name, Place, Spawn};
pub use record::{RECORD_BYTES, get_desc, put_desc};
