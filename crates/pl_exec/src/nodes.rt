//! The nodes of an executor.

ghost use Rattle.std.specs.Prelude.{◌≡◌, All, get_or, true, false};
ghost use Rattle.pl_exec.specs.ExecutorNodes.{HasGivenUp, IsRefusedBy, MayMoveOwn, AreOver, IsPartOver, channel_parts, own_channels, own_view, served_of};
ghost use Rattle.pl_exec.specs.Telling.{ExecutorStands, TellsAfter};
ghost use Rattle.pl_part.specs.Parts.{PartHolds};
ghost use Rattle.pl_channel.specs.Channels.{IsMovedBy, IsTakenBy};
ghost use Rattle.pl_event.specs.Worlds.{World};

use crate::planned::Planned;
use crate::words::{Seats, Words};
use pl_context::Outputs;
use pl_event::{Envelope, Lane, Stage};
use pl_flow::HeadMove;
use pl_head::Transport;
use pl_part::ChannelPart;
use pl_threads::OwnNodes;

/// The nodes that are on an executor, with the words that their heads tell.
#[derive(Drop)]
pub(crate) struct ExecutorNodes<'a, S: Stage, T: Transport> {
    /// The executor's number, for contracts alone.
    pub(crate) number: usize,
    /// The channels that have a node here, in order.
    pub(crate) here: Vec<usize>,
    /// Of each of these the part that is here.
    pub(crate) parts: Vec<ChannelPart<S, T>>,
    /// Of each of these the seats on its words, where there are some and its head is one of the nodes.
    pub(crate) seats: Vec<Option<Seats>>,
    /// The positions, among these, of the channels whose heads are here. Only these are read and written here.
    pub(crate) heads: Vec<usize>,
    /// By channel its position among these; how many they are, where it has no node here.
    pub(crate) positions: Vec<u8>,
    /// Something of a lane that one of its contexts writes was refused.
    pub(crate) was_refused: bool,
    pub(crate) words: &'a Words,
}

impl<'a, W: Planned, S: Stage, T: Transport> OwnNodes<W> for ExecutorNodes<'a, S, T> {
    ghost view_of = { own_view W.plan S.meaning };

    ghost acts = { record {
      takes = λ n e before n' after. TellsAfter W.plan (λ between. IsTakenBy S.meaning S.stands_after S.is_spent T.state (channel_parts W.plan n) e before between after) e.lane.channel n n';
      refuses = λ n lane before n' after. IsRefusedBy (channel_parts W.plan n) lane before (channel_parts W.plan n') after × (n'.seats ≡ n.seats);
      gave_up = λ n lane. HasGivenUp (channel_parts W.plan n) lane;
      moves = λ n by at before n' after. TellsAfter W.plan (λ between. IsMovedBy T.state T.may_refuse (channel_parts W.plan n) by (get_or (own_channels n) at 0) before between after) (get_or (own_channels n) at 0) n n';
    } };

    ghost may_move = { λ n by at answer. MayMoveOwn T.state (channel_parts W.plan n) (own_channels n) by at answer };

    ghost served = { λ n c. served_of T.state W.plan (channel_parts W.plan n) c };

    ghost are_over = { λ n. AreOver T.state (channel_parts W.plan n) };

    ghost stands = { ExecutorStands W.world W.plan S.meaning S.stands_after T.state };

    fn target(&self, lane: Lane) -> usize {
        let position = self.positions[lane.channel as usize] as usize;
        self.parts[position].target(lane.hop as usize)
    }

    fn take(&mut self, envelope: Envelope, work: &mut Outputs) {
        let position = self.positions[envelope.lane.channel as usize] as usize;
        let hop = envelope.lane.hop as usize;
        let part = &mut self.parts[position];
        let is_head = hop == part.head_hop();
        let _ = part.take(envelope, work);
        self.tell_if::<W>(position, is_head);
    }

    fn refuse(&mut self, lane: Lane, work: &mut Outputs) {
        self.was_refused = true;
        let position = self.positions[lane.channel as usize] as usize;
        self.parts[position].refuse(lane, work);
    }

    fn head_count(&self) -> usize {
        self.heads.len()
    }

    #[inline(always)]
    fn move_head(&mut self, by: HeadMove, at: usize, work: &mut Outputs) -> bool {
        let position = self.heads[at];
        let has_moved = self.parts[position].move_head(by, work);
        self.tell_if::<W>(position, has_moved);
        has_moved
    }

    fn has_ended(&self) -> bool {
        are_over(self.parts.as_slice())
    }
}

/// Whether all nodes of these parts have ended or failed, no read step is left, and no flushed byte waits.
fn are_over<S: Stage, T: Transport>(parts: &[ChannelPart<S, T>]) -> bool
    requires { (world : World) × All (PartHolds world S.meaning S.stands_after T.state) parts.now }
    ensures over { result ≡ true → All (IsPartOver T.state) parts.now }
    ensures not_over { result ≡ false → All (IsPartOver T.state) parts.now → ⊥ }
{
    for part in parts {
        if !is_over(part) {
            return false;
        }
    }
    true
}

/// Whether all of a part's nodes have ended or failed, no read step is left, and no flushed byte waits.
fn is_over<S: Stage, T: Transport>(part: &ChannelPart<S, T>) -> bool
    requires holds { (world : World) × PartHolds world S.meaning S.stands_after T.state part.now }
    ensures over { result ≡ true → IsPartOver T.state part.now }
    ensures not_over { result ≡ false → IsPartOver T.state part.now → ⊥ }
{
    part.has_ended() && !part.has_read_step() && part.is_written()
}
