//! Gates that workers pass.

/// What each worker passes, outside the lock, before it hands in a leg.
pub trait Gate {
    /// A worker, counted from 0, is about to hand in this leg of its own, counted from 1.
    fn pass(&self, worker: u32, leg: u64);
}

/// A gate that lets all pass.
#[derive(Drop)]
pub struct OpenGate;

impl Gate for OpenGate {
    fn pass(&self, _worker: u32, _leg: u64) {}
}
