//! The laws of memory under speculation: how the accesses of the uncommitted tasks chain, and that each kind of
//! event keeps the chain.
//!
//! They are definitions over what memory reads of a task (`Logged`), with tasks given as a function from ids, and
//! each law is the contract of a function that does nothing and costs nothing. They hold of any filter that leaves
//! no access out, and of any line of whole words. It stands on logs, filters and keys; the laws of tasks,
//! states and events stand on it, and the state, its accesses, its rollback, `event_prelude` and `event_step` cite it.
#![tactic(auto)]

mod laws;

pub use laws::{
    abort_keeps_chain, all_logs_undone_is_serial, chain_is_replay, commit_keeps_chain,
    dispatch_keeps_chain, filter_leaves_none_out, idle_tasks_keep_chain, key_order_is_one,
    latest_first, lines_share_no_byte, load_keeps_chain, no_conflict_is_left, store_keeps_chain,
    undispatched_is_chained,
};
