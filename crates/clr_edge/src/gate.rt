/// What a worker passes at the start of each visit.
pub trait Gate {
    /// Called at the start of a visit with the worker's number, from 0, and the number of its
    /// visit, from 1. It returns.
    fn at(&self, worker: u32, visit: u64);
}

/// The gate that does nothing.
#[derive(Clone, Copy, Debug)]
pub struct OpenGate;

impl Gate for OpenGate {
    fn at(&self, _worker: u32, _visit: u64) {}
}
