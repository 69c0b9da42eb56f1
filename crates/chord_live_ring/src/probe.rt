//! A hook for tests at each event of a worker.

/// Called at each event of a worker, under the node's lock.
pub trait Probe {
    fn pass(&self, number: u64);
}

/// A hook that does nothing.
#[derive(Clone, Copy, Debug)]
pub struct NoProbe;

impl Probe for NoProbe {
    fn pass(&self, _no: u64) {}
}
