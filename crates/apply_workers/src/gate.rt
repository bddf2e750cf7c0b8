//! What a worker passes between a claim and its work.

/// Passed after each claim and before its work, with the worker's number and the group's. It may count, or delay a
/// worker.
pub trait Gate {
    fn pass(&self, worker: usize, group: usize);
}

/// A gate that is always open.
pub struct OpenGate;

impl Gate for OpenGate {
    fn pass(&self, _worker: usize, _group: usize) {}
}
