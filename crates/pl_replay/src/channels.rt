//! The nodes of all channels.

ghost use Rattle.pl_channel.specs.Channels.{ChannelsStand, IsTakenBy, IsMovedBy, IsAbortedBy, MayMove};
ghost use Rattle.pl_replay.specs.Views.{channels_view};

use pl_context::Outputs;
use pl_event::{Envelope, Lane, Stage};
use pl_flow::HeadMove;
use pl_head::Transport;
use pl_net::Nodes;
use pl_part::ChannelPart;

/// The nodes of all channels, by number: a part with all nodes for each.
#[derive(Drop)]
pub struct Channels<S: Stage, T: Transport> {
    pub parts: Vec<ChannelPart<S, T>>,
}

impl<S: Stage, T: Transport> Nodes for Channels<S, T> {
    ghost view_of = { λ channels. channels_view S.meaning channels.parts.items };

    ghost stands = { λ world channels. ChannelsStand world S.meaning S.stands_after T.state channels.parts.items };

    ghost takes = { λ channels envelope before after work. IsTakenBy S.meaning S.stands_after S.is_spent T.state channels.parts.items envelope before after.parts.items work };

    ghost moves = { λ channels by channel before after work. IsMovedBy T.state T.may_refuse channels.parts.items by channel before after.parts.items work };

    ghost may_move = { λ channels by channel answer. MayMove T.state channels.parts.items by channel answer };

    ghost aborts = { λ channels channel before after work. IsAbortedBy T.state channels.parts.items channel before after.parts.items work };

    fn home(&self, channel: usize) -> usize {
        let part = &self.parts[channel];
        part.target(part.head_hop())
    }

    fn target(&self, lane: Lane) -> usize {
        self.parts[lane.channel as usize].target(lane.hop as usize)
    }

    fn take(&mut self, envelope: Envelope, work: &mut Outputs) {
        let _ = self.parts[envelope.lane.channel as usize].take(envelope, work);
    }

    fn move_head(&mut self, by: HeadMove, channel: usize, work: &mut Outputs) -> bool {
        self.parts[channel].move_head(by, work)
    }

    fn abort(&mut self, channel: usize, work: &mut Outputs) {
        self.parts[channel].abort(work)
    }
}
