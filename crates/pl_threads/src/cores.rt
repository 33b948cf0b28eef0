//! The work list of an executor, and its direct calls.

ghost use Rattle.std.specs.Prelude.{◌≡◌, ◌<◌, [], false, true};
ghost use Rattle.pl_event.specs.declared.envelopes.Envelope.{Envelope};
ghost use Rattle.pl_context.specs.Stops.{HasPlaces};
ghost use Rattle.pl_flow.specs.Flows.{IsGood};
ghost use Rattle.pl_flow.specs.LanesViews.{taken_with};
ghost use Rattle.pl_outbox.specs.Admitting.{FewLanes};
ghost use Rattle.pl_outbox.specs.OutboxViews.{admissions, SomeClosed};
ghost use Rattle.pl_threads.specs.Cores.{CoreHolds, CoreKeeps, FrontGoes, WorksOff, WorksOffAfter, at_work};
ghost use Rattle.pl_threads.specs.NodesViews.{TakesOwn};
ghost use Rattle.pl_threads.specs.Running.{RunsOn};
ghost use Rattle.pl_threads.specs.Serving.{ServesNone, MovesAtMostOnce};

use crate::nodes::OwnNodes;
use pl_context::Outputs;
use pl_event::{Envelope, Named};
use pl_flow::HeadMove;
use pl_outbox::Outboxes;
use pl_queue::Mailbox;
use pl_words::Refused;
use std::sync::Wait;

/// The nodes of an executor, the list on which they put what they make, and what waits for others.
#[derive(Drop)]
pub struct Core<'a, W: Named, M: Mailbox<W> + Drop, N: OwnNodes<W> + Drop> {
    /// The executor's number.
    pub(crate) number: usize,
    pub(crate) nodes: N,
    pub(crate) outboxes: Outboxes<'a, W, M>,
    pub(crate) work: Outputs,
}

impl<'a, W: Named, M: Mailbox<W> + Drop, N: OwnNodes<W> + Drop> Core<'a, W, M, N> {
    /// The nodes of the executor of this number, with its outboxes and an empty work list, each with a place for every lane that
    /// may stop there. The nodes write fewer than 2^13 lanes, and no seat has made an admission: so none is ever spent.
    #[tactic(auto, using(pl_outbox::proofs::AdmissionLemmas::admits_start))]
    pub fn of(number: usize, nodes: N, outboxes: Outboxes<'a, W, M>, work: Outputs) -> Self
        requires stands { N.stands nodes }
        requires executor { (N.view_of nodes).executor ≡ number }
        requires places { HasPlaces work.stopped (N.view_of nodes).lanes.places }
        requires runs { RunsOn W.world number (N.view_of nodes).lanes outboxes work }
        requires why { (N.view_of nodes).was_refused ≡ true → SomeClosed outboxes }
        requires few { FewLanes (N.view_of nodes).lanes }
        requires admitted { admissions outboxes ≡ 0 }
        requires empty { work.items ≡ [] }
        ensures value { result ≡ record { number = number; nodes = nodes; outboxes = outboxes.entry; work = work } }
        ensures holds { CoreHolds N.view_of N.stands W.world result }
    {
        Core {
            number,
            nodes,
            outboxes,
            work,
        }
    }

    /// Takes the front of the work list: a direct call, or an item for another executor, to its outbox. Where that executor
    /// is closed, the context that wrote it fails. The seat there is never spent. False where the list is empty.
    pub fn step(&mut self) -> bool
        requires holds { CoreHolds N.view_of N.stands W.world self.old }
        ensures holds { CoreHolds N.view_of N.stands W.world self.new }
        ensures keeps { CoreKeeps N.view_of self.old self.new }
        ensures served { ServesNone (N.served self.old.nodes) (N.served self.new.nodes) }
        ensures taken { TakesOwn (N.view_of self.old.nodes).lanes (N.view_of self.new.nodes).lanes }
        // Its node takes the front. Or it waits for another executor; or that was found closed, and its writer has given up.
        ensures front { result ≡ true → (front : Envelope) × FrontGoes N.view_of N.acts self.old.number front (at_work self.old) (at_work self.new) }
        ensures empty { result ≡ false → (self.old.work.items ≡ []) × (self.new.work.items ≡ []) × (self.new.nodes ≡ self.old.nodes) × (self.new.outboxes ≡ self.old.outboxes) }
    {
        let Some(front) = self.work.next() else {
            return false;
        };
        let target = self.nodes.target(front.lane);
        if target == self.number {
            self.nodes.take(front, &mut self.work);
            return true;
        }
        let lane = front.lane;
        match self.outboxes.add(target, front) {
            Ok(()) => {}
            Err(Refused::Closed) => self.nodes.refuse(lane, &mut self.work),
            Err(Refused::SeatSpent) => unreachable!(),
        }
        true
    }

    /// An item of a lane that another executor writes is taken.
    pub fn take(&mut self, envelope: Envelope)
        requires holds { CoreHolds N.view_of N.stands W.world self.old }
        requires here { (N.view_of self.old.nodes).lanes.target envelope.lane ≡ self.old.number }
        requires foreign { (N.view_of self.old.nodes).lanes.written envelope.lane ≡ false }
        requires number { envelope.number ≡ (N.view_of self.old.nodes).lanes.taken envelope.lane }
        requires good { IsGood W.world envelope }
        ensures holds { CoreHolds N.view_of N.stands W.world self.new }
        ensures keeps { CoreKeeps N.view_of self.old self.new }
        ensures served { ServesNone (N.served self.old.nodes) (N.served self.new.nodes) }
        ensures taken { (N.view_of self.new.nodes).lanes.taken ≡ taken_with (N.view_of self.old.nodes).lanes.taken envelope }
        ensures takes { N.acts.takes self.old.nodes envelope self.old.work self.new.nodes self.new.work }
        ensures outboxes { self.new.outboxes ≡ self.old.outboxes }
    {
        self.nodes.take(envelope, &mut self.work);
    }

    /// Works the list off.
    #[inline(never)]
    pub fn work_off<R: Wait>(&mut self, rt: &R)
        requires holds { CoreHolds N.view_of N.stands W.world self.old }
        ensures holds { CoreHolds N.view_of N.stands W.world self.new }
        ensures keeps { CoreKeeps N.view_of self.old self.new }
        ensures served { ServesNone (N.served self.old.nodes) (N.served self.new.nodes) }
        ensures taken { TakesOwn (N.view_of self.old.nodes).lanes (N.view_of self.new.nodes).lanes }
        ensures empty { self.new.work.items ≡ [] }
        ensures works { WorksOff N.view_of N.acts self.old.number (at_work self.old) self.new.nodes self.new.outboxes }
    {
        for _ in rt.forever() {
            if !self.step() {
                return;
            }
        }
        unreachable!()
    }

    /// A move of a channel's head, with the direct calls that follow. False where it is not enabled.
    #[inline(always)]
    pub fn move_head<R: Wait>(&mut self, rt: &R, by: HeadMove, at: usize) -> bool
        requires there { at < (N.view_of self.old.nodes).heads }
        requires holds { CoreHolds N.view_of N.stands W.world self.old }
        requires empty { self.old.work.items ≡ [] }
        ensures enabled { N.may_move self.old.nodes by at result }
        ensures idle { result ≡ false → self.new ≡ self.old }
        ensures holds { CoreHolds N.view_of N.stands W.world self.new }
        ensures keeps { CoreKeeps N.view_of self.old self.new }
        ensures served { MovesAtMostOnce by (N.served self.old.nodes) (N.served self.new.nodes) }
        ensures taken { TakesOwn (N.view_of self.old.nodes).lanes (N.view_of self.new.nodes).lanes }
        ensures empty { self.new.work.items ≡ [] }
        ensures moves { result ≡ true → WorksOffAfter N.view_of N.acts self.old.number (N.acts.moves self.old.nodes by at self.old.work) self.old.outboxes self.new.nodes self.new.outboxes }
    {
        if !self.nodes.move_head(by, at, &mut self.work) {
            return false;
        }
        self.work_off(rt);
        true
    }
}
