//! When a view of the speculative machine is sound, and that each change keeps it so.
//!
//! A view is sound where its journal is a run of the serial machine and an abort of all its uncommitted tasks would
//! leave that run's state: four groups of facts (`Sound`). The laws are the contracts of functions that do nothing and
//! cost nothing. `pending_law` and the laws of events depend on them, and the crates above cite what `Proved` gives. It
//! uses the state's definitions and the laws of order, memory, tasks and runs.
#![tactic(auto)]

mod aborting;
mod accessing;
mod committing;
mod filters;
mod laws;
mod queueing;
mod renumbering;
mod room;
mod stepping;

pub use aborting::{
    abort_for_room_is_sound, abort_keeps_heir_of_view, abort_keeps_sound, abort_keeps_sound_memory,
    abort_keeps_sound_order, abort_keeps_sound_sizes, abort_keeps_sound_tasks,
    abort_of_conflicts_is_sound, abort_of_later_is_sound, abort_of_one_is_sound,
    cascade_holds_pulled, cascade_spares_heir, conflicts_spare_heir, marked_are_aborted,
    marked_are_idle, marked_leave_memory,
};
pub use accessing::{enqueue_stays_sound, load_stays_sound, store_stays_sound};
pub use committing::commit_is_sound_turn;
pub use filters::{exact_filters_tell, filters_leave_none_out, filters_tell, modulo_pulls_by_bits};
pub use laws::{
    all_undone_is_serial, cascade_is_later, conflicts_spare_asker, least_is_next, least_is_one,
    least_spilled_is_next, spilled_are_firm, undo_all_is_serial,
};
pub use queueing::{coalesce_stays_sound, dispatch_stays_sound, split_stays_sound};
pub use renumbering::{
    numbers_are_held, numbers_in_use_are_few, renumbering_says_same, renumbering_stays_sound,
};
pub use room::{
    child_is_above, coalesce_makes_room, firm_is_firm, movable_is_movable, room_is_made,
    split_keeps_least, split_returns_least, victim_is_later, victim_is_victim,
};
pub use stepping::{
    byte_stays_sound, end_stays_sound, quantum_stays_sound, sub_stays_sound, trap_stays_sound,
};
