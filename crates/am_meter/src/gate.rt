//! What is told when workers begin and end their shares.

/// Is told when a worker begins a share of the records that are counted, and when it has ended it. What a gate does
/// changes nothing of what is counted.
pub trait Gate: Sync {
    /// The worker of this number begins a share.
    fn enter(&self, worker: u32);

    /// The worker of this number has ended its share.
    fn leave(&self, worker: u32);
}

/// A gate that does nothing.
pub struct NoGate;

impl Gate for NoGate {
    fn enter(&self, _worker: u32) {}

    fn leave(&self, _worker: u32) {}
}
