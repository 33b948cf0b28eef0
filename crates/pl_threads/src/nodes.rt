//! What an executor runs: contexts, tails and heads.

ghost use Rattle.std.specs.Prelude.{◌≡◌, ◌<◌, ℕ, Bool, false, true};
ghost use Rattle.pl_context.specs.Stops.{HasPlaces};
ghost use Rattle.pl_flow.specs.declared.head_moves.HeadMove.{HeadMove};
ghost use Rattle.pl_flow.specs.Flows.{IsGood};
ghost use Rattle.pl_flow.specs.LanesViews.{KeepsPlaces, taken_with};
ghost use Rattle.pl_threads.specs.NodesViews.{OwnNodesView, NodesActs, NodesKeep, LanesMake};
ghost use Rattle.pl_threads.specs.Serving.{Served, ServesNone, MovesAtMostOnce};

use pl_context::Outputs;
use pl_event::{Envelope, Lane, Named};
use pl_flow::HeadMove;

/// The nodes of an executor. What they make of an item they put on a work list, lane by lane the next items of that lane.
pub trait OwnNodes<W: Named>: Sized {
    /// Where they are, where their lanes go, and how far these have come. A lane enters the nodes' own executor only where one
    /// of them is entered. A call names a channel whose head is among them by where it stands in the list of these.
    ghost view_of: { Self → OwnNodesView };

    /// What they do: what the node that an item enters makes of it; what becomes of them where an item of a lane is refused;
    /// what the head of the channel at a position does in a move. A context whose data lane was refused has given up: it has
    /// ended or failed. A head, and a lane of flags, go on.
    ghost acts: { NodesActs Self };

    /// Whether a move of the head of a channel is enabled: that head is one of these nodes, and a read step is left and not
    /// held, or a flushed byte waits and the head has not failed by itself.
    ghost may_move: { Self → HeadMove → ℕ → Bool → Type 0 };

    /// By the number of a channel, how often its head, where it is one of these nodes, has read and written.
    ghost served: { Self → ℕ → Served };

    /// Each context, tail and head of these has ended or failed, no read step is left, and no flushed byte is left.
    ghost are_over: { Self → Type 0 };

    /// What holds of them between two calls.
    ghost stands: { Self → Type 0 };

    /// The executor that a lane enters, which one of these nodes writes.
    fn target(&self, lane: Lane) -> usize
        requires stands { stands self.now }
        requires written { (view_of self.now).lanes.written lane ≡ true }
        ensures { result ≡ (view_of self.now).lanes.target lane };

    /// The node that the envelope's lane enters takes it.
    fn take(&mut self, envelope: Envelope, work: &mut Outputs)
        requires stands { stands self.old }
        requires here { (view_of self.old).lanes.target envelope.lane ≡ (view_of self.old).executor }
        requires number { envelope.number ≡ (view_of self.old).lanes.taken envelope.lane }
        requires good { IsGood W.world envelope }
        requires places { HasPlaces work.old.stopped (view_of self.old).lanes.places }
        ensures takes { acts.takes self.old envelope work.old self.new work.new }
        ensures stands { stands self.new }
        ensures keeps { NodesKeep (view_of self.old) (view_of self.new) }
        ensures taken { (view_of self.new).lanes.taken ≡ taken_with (view_of self.old).lanes.taken envelope }
        ensures placed { KeepsPlaces (view_of self.old).lanes.places work.old.stopped work.new.stopped }
        ensures refused { (view_of self.new).was_refused ≡ (view_of self.old).was_refused }
        ensures served { ServesNone (served self.old) (served self.new) }
        ensures makes { LanesMake W.world (view_of self.old).lanes work.old (view_of self.new).lanes work.new };

    /// Nothing more of a lane is accepted, which one of these nodes writes: a context that writes it fails. A flags lane, and
    /// a lane that a head writes, go on, and what they bring is refused again.
    fn refuse(&mut self, lane: Lane, work: &mut Outputs)
        requires stands { stands self.old }
        requires written { (view_of self.old).lanes.written lane ≡ true }
        requires places { HasPlaces work.old.stopped (view_of self.old).lanes.places }
        ensures stands { stands self.new }
        ensures keeps { NodesKeep (view_of self.old) (view_of self.new) }
        ensures taken { (view_of self.new).lanes.taken ≡ (view_of self.old).lanes.taken }
        ensures placed { KeepsPlaces (view_of self.old).lanes.places work.old.stopped work.new.stopped }
        ensures served { ServesNone (served self.old) (served self.new) }
        ensures gave_up { acts.gave_up self.new lane }
        ensures refuses { acts.refuses self.old lane work.old self.new work.new }
        ensures makes { LanesMake W.world (view_of self.old).lanes work.old (view_of self.new).lanes work.new };

    /// How many heads are among these nodes: so many channels are read and written here.
    fn head_count(&self) -> usize
        ensures { result ≡ (view_of self.now).heads };

    /// The head of a channel makes a move, where that is enabled. False where it made none.
    fn move_head(&mut self, by: HeadMove, at: usize, work: &mut Outputs) -> bool
        requires there { at < (view_of self.old).heads }
        requires stands { stands self.old }
        requires places { HasPlaces work.old.stopped (view_of self.old).lanes.places }
        ensures enabled { may_move self.old by at result }
        ensures idle { result ≡ false → (self.new ≡ self.old) × (work.new ≡ work.old) }
        ensures moves { result ≡ true → acts.moves self.old by at work.old self.new work.new }
        ensures stands { stands self.new }
        ensures keeps { NodesKeep (view_of self.old) (view_of self.new) }
        ensures taken { (view_of self.new).lanes.taken ≡ (view_of self.old).lanes.taken }
        ensures placed { KeepsPlaces (view_of self.old).lanes.places work.old.stopped work.new.stopped }
        ensures refused { (view_of self.new).was_refused ≡ (view_of self.old).was_refused }
        ensures served { MovesAtMostOnce by (served self.old) (served self.new) }
        ensures makes { LanesMake W.world (view_of self.old).lanes work.old (view_of self.new).lanes work.new };

    /// Whether each of them has ended or failed, and no read step and no flushed byte is left.
    fn has_ended(&self) -> bool
        requires stands { stands self.now }
        ensures over { result ≡ true → are_over self.now }
        ensures not_over { result ≡ false → are_over self.now → ⊥ };
}
