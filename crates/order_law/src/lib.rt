//! The order of the machine's tasks: what holds of keys, dispatch numbers and creators in every state, and that
//! each event keeps it.
//!
//! The tasks are a function from ids to what the order reads of them; no state of the machine is known here. Each
//! law is the contract of a function that does nothing and costs nothing. It stands on keys and closed sets; the
//! laws of states and events stand on it, and the state cites it.
#![tactic(auto)]

mod laws;

pub use laws::{
    abort_keeps_heir, abort_keeps_order, cascade_lies_above, cascade_spares_lower,
    commit_keeps_order, dispatch_keeps_heir, dispatch_keeps_order, dispatch_makes_heir,
    dispatched_are_above_least, domain_numbers_are_held, enqueue_keeps_heir, enqueue_keeps_order,
    least_is_heir, least_is_innermost, opening_is_ordered, renumbering_keeps_order,
    spill_keeps_heir, spill_keeps_least, spill_keeps_order,
};
