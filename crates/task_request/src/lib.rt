//! What a task asks for, once a leg of it has stopped: a load, a store, a child, a subdomain, a byte, its end, a trap,
//! or to go on.
//!
//! Both machines run a task leg by leg and find its request here: [`request_of`] reads the stop of the leg, at an ECALL
//! the registers, and the rules of calls. What the answer then does to a task is one definition by cases; each machine
//! does it on a state of its own, and goes on at the core that `rv_core` gives. A request is plain `Copy` data. To find
//! it costs a few comparisons and no memory. It uses `rv_core` and `task_desc`.
#![tactic(auto)]

mod request;

pub use request::{Request, request_of, request_of_stop};
