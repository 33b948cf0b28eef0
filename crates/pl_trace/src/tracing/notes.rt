//! Notes of what executors have in hand.

use pl_event::Envelope;
use pl_net::Watch;
use std::alloc::{AllocError, Global};

/// An item that an executor had in hand: for a node of its own, or for its backlog where the target is another one.
#[derive(Debug, Drop)]
pub(crate) struct Step {
    pub(crate) me: usize,
    pub(crate) target: usize,
    pub(crate) envelope: Envelope,
}

/// Notes of the steps of a move.
#[derive(Drop)]
pub(crate) struct Notes {
    steps: Vec<Step>,
    /// Memory was refused for one of them.
    lacks_any: bool,
}

impl Notes {
    /// Of no step.
    pub(crate) fn new(alloc: Global) -> Notes {
        Notes {
            steps: Vec::new(alloc),
            lacks_any: false,
        }
    }

    /// The steps, unless memory was refused for one.
    pub(crate) fn into_steps(self) -> Result<Vec<Step>, AllocError> {
        let Notes { steps, lacks_any } = self;
        if lacks_any {
            Err(AllocError)
        } else {
            Ok(steps)
        }
    }

    /// Notes one step more.
    fn add(&mut self, me: usize, target: usize, envelope: &Envelope) -> Result<(), AllocError> {
        let envelope = envelope.clone()?;
        self.steps.push(Step {
            me,
            target,
            envelope,
        })?;
        Ok(())
    }
}

impl Watch for Notes {
    fn see(&mut self, me: usize, target: usize, envelope: &Envelope) {
        if self.add(me, target, envelope).is_err() {
            self.lacks_any = true;
        }
    }
}
