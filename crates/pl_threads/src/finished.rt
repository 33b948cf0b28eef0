//! What an executor that has ended leaves.

ghost use Rattle.std.specs.Prelude.{◌≡◌};
ghost use Rattle.pl_threads.specs.Running.{IsFinished};

use crate::nodes::OwnNodes;
use pl_context::Waiting;
use pl_event::Named;
use pl_queue::Mailbox;
use pl_words::{Admitted, OwnerSeat, SendSeat};
use std::marker::{Model, PhantomData};

/// What an executor leaves: its number, its nodes, each of them over, its right to its queue, which is closed, and what took from
/// that as many as were admitted; what waits for others, which is nothing; and the first of its seats that has seen its
/// target closed. There is one where a node has failed by a refusal.
#[derive(Drop)]
pub struct Finished<W: Named, M: Mailbox<W> + Drop, N: OwnNodes<W> + Drop> {
    pub(crate) number: usize,
    pub(crate) nodes: N,
    pub(crate) owner: OwnerSeat,
    pub(crate) taker: M::Taker,
    pub(crate) waiting: Waiting<Admitted>,
    pub(crate) refusal: Option<SendSeat>,
    pub(crate) of: PhantomData<W>,
}

impl<W: Named, M: Mailbox<W> + Drop, N: OwnNodes<W> + Drop> Model for Finished<W, M, N> {
    ghost use Rattle.pl_threads.specs.Running.{FinishedView, IsFinished};

    ghost Value = { FinishedView N };

    ghost view = { λ f. record { number = f.number; nodes = f.nodes; owner = f.owner; takes = M.ends.takes_of f.taker; waiting = f.waiting; refusal = f.refusal } };

    ghost invariant = { λ f. N.stands f.nodes × N.are_over f.nodes × IsFinished N.view_of (record { number = f.number; nodes = f.nodes; owner = f.owner; takes = M.ends.takes_of f.taker; waiting = f.waiting; refusal = f.refusal }) };
}

impl<W: Named, M: Mailbox<W> + Drop, N: OwnNodes<W> + Drop> Finished<W, M, N> {
    /// The nodes: contexts, tails and heads, each of which has ended or failed.
    pub fn into_nodes(self) -> N
        ensures nodes { result ≡ self.nodes }
        ensures stands { N.stands result }
        ensures over { N.are_over result }
        ensures finished { IsFinished N.view_of self }
    {
        let Finished { nodes, .. } = self;
        nodes
    }
}
