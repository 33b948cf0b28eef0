//! What executors run: contexts, tails and heads.

ghost use Rattle.std.specs.Prelude.{◌≡◌, ◌<◌, ℕ, Bool, false, true};
ghost use Rattle.pl_event.specs.declared.envelopes.Envelope.{Envelope};
ghost use Rattle.pl_event.specs.Worlds.{World};
ghost use Rattle.pl_context.specs.OutputsViews.{OutputsView};
ghost use Rattle.pl_context.specs.Stops.{HasPlaces};
ghost use Rattle.pl_flow.specs.Flows.{IsGood};
ghost use Rattle.pl_flow.specs.declared.head_moves.HeadMove.{HeadMove};
ghost use Rattle.pl_net.specs.NodesViews.{NodesView, NodesTake, NodesMake, HeadGives};

use pl_context::Outputs;
use pl_event::{Envelope, Lane};
use pl_flow::HeadMove;

/// The nodes of all channels. What they make of an item they put on a work list, lane by lane the next items of that lane.
pub trait Nodes: Sized {
    /// How many channels there are, where their lanes go, and how far they have come.
    ghost view_of: { Self → NodesView };

    /// What holds of them between two calls, in a world.
    ghost stands: { World → Self → Type 0 };

    /// What a node has done with an envelope that it took.
    ghost takes: { Self → Envelope → OutputsView → Self → OutputsView → Type 0 };

    /// What the head of a channel has done in a move that it made.
    ghost moves: { Self → HeadMove → ℕ → OutputsView → Self → OutputsView → Type 0 };

    /// Whether a move of the channel's head is enabled.
    ghost may_move: { Self → HeadMove → ℕ → Bool → Type 0 };

    /// What the head of a channel has done that was aborted.
    ghost aborts: { Self → ℕ → OutputsView → Self → OutputsView → Type 0 };

    /// The executor of a channel's head.
    fn home(&self, channel: usize) -> usize
        requires there { channel < (view_of self.now).channels }
        requires stands { (world : World) × stands world self.now }
        ensures { result ≡ (view_of self.now).home channel };

    /// The executor that a lane enters.
    fn target(&self, lane: Lane) -> usize
        requires { (view_of self.now).lanes.written lane ≡ true }
        ensures { result ≡ (view_of self.now).lanes.target lane };

    /// The node that the envelope's lane enters takes it.
    fn take(&mut self, envelope: Envelope, work: &mut Outputs)
        requires next { (world : World) × stands world self.old × IsGood world envelope }
        requires written { (view_of self.old).lanes.written envelope.lane ≡ true }
        requires number { envelope.number ≡ (view_of self.old).lanes.taken envelope.lane }
        requires places { HasPlaces work.old.stopped (view_of self.old).lanes.places }
        ensures takes { takes self.old envelope work.old self.new work.new }
        ensures view { NodesTake (view_of self.old) envelope work.old (view_of self.new) work.new }
        ensures stands { (world : World) → stands world self.old → IsGood world envelope → stands world self.new }
        ensures makes { (world : World) → stands world self.old → IsGood world envelope
            → NodesMake world (view_of self.old) ((view_of self.old).lanes.target envelope.lane) work.old (view_of self.new) work.new };

    /// The head of a channel makes a move: its next read step, where one is left and not held, or a write to its transport,
    /// where a flushed byte waits and it has not failed. False where it made none.
    fn move_head(&mut self, by: HeadMove, channel: usize, work: &mut Outputs) -> bool
        requires there { channel < (view_of self.old).channels }
        requires stands { (world : World) × stands world self.old }
        requires places { HasPlaces work.old.stopped (view_of self.old).lanes.places }
        ensures enabled { may_move self.old by channel result }
        ensures idle { result ≡ false → (self.new ≡ self.old) × (work.new ≡ work.old) }
        ensures moves { result ≡ true → moves self.old by channel work.old self.new work.new }
        ensures gives { HeadGives view_of stands self.old channel work.old self.new work.new };

    /// A channel is aborted: its head fails, where it has not.
    fn abort(&mut self, channel: usize, work: &mut Outputs)
        requires there { channel < (view_of self.old).channels }
        requires stands { (world : World) × stands world self.old }
        requires places { HasPlaces work.old.stopped (view_of self.old).lanes.places }
        ensures aborts { aborts self.old channel work.old self.new work.new }
        ensures gives { HeadGives view_of stands self.old channel work.old self.new work.new };
}
