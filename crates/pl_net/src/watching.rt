//! What is told of a move while it is made.

use pl_event::Envelope;

/// What is told of the items that an executor has in hand in a move, one by one. It changes nothing of the move.
pub trait Watch {
    /// Executor `me` has an item in hand for executor `target`: for a node of its own, which takes it next, where `target` is
    /// `me`; else for its backlog.
    fn see(&mut self, me: usize, target: usize, envelope: &Envelope);
}

/// One that looks away.
#[derive(Drop)]
pub struct NoWatch;

impl Watch for NoWatch {
    fn see(&mut self, _me: usize, _target: usize, _envelope: &Envelope) {}
}
