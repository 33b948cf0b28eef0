//! What executors share of one of them.

ghost use Rattle.std.specs.Prelude.{◌≡◌, IfOk};

use crate::bell::Bell;
use crate::congestion::Congestion;
use crossbeam_utils::sync::Parker;
use pl_event::Named;
use pl_queue::Mailbox;
use pl_words::Admission;
use std::alloc::{AllocError, Global};
use std::marker::PhantomData;

/// What executors share of one of them: its queue, who may still send there, what wakes it, and whether it is congested.
#[derive(Drop)]
pub struct Inbox<W: Named, M: Mailbox<W> + Drop> {
    pub mailbox: M,
    pub admission: Admission,
    pub bell: Bell,
    pub congestion: Congestion,
    of: PhantomData<W>,
}

impl<W: Named, M: Mailbox<W> + Drop> Inbox<W, M> {
    /// The inbox of an executor, and the parker on which that rests.
    pub fn new(
        alloc: Global,
        mailbox: M,
        admission: Admission,
    ) -> Result<(Self, Parker), AllocError>
        ensures mailbox { IfOk result (λ new. new.0.mailbox ≡ mailbox) }
        ensures admission { IfOk result (λ new. new.0.admission ≡ admission) }
    {
        let parker = Parker::new(alloc)?;
        let bell = Bell::new(parker.unparker().clone()?);
        let inbox = Inbox {
            mailbox,
            admission,
            bell,
            congestion: Congestion::new(),
            of: PhantomData,
        };
        Ok((inbox, parker))
    }
}
