//! What a mailbox asks of the queue that it stands on.

ghost use Rattle.std.specs.Prelude.{◌≡◌, ◌<◌, ℕ, true, None, IfOk, MatchOption};
ghost use Rattle.pl_event.specs.declared.envelopes.Lane.{Lane};
ghost use Rattle.pl_queue.specs.declared.views.PassView.{PassView};
ghost use Rattle.pl_queue.specs.Rule.{IsTakersNext, BothSee, WasOnce};
ghost use Rattle.pl_queue.specs.Views.{next_of, has_lane, newcomer, dealing, dealt, pass_joined, taken};

use crate::rule::Dealt;
use pl_event::{Envelope, Named};
use std::alloc::{AllocError, Global};
use std::sync::Wait;

/// A queue under the queue rule. Who holds a pass of it may send or take, as the pass's view says.
pub trait RuledQueue<W: Named>: Sized {
    type Pass: Drop;

    /// What the holder of a pass knows.
    ghost view_of: { Self.Pass → PassView };

    /// It is a pass of this queue.
    ghost is_pass: { Self → Self.Pass → Type 0 };

    /// The most envelopes that it holds.
    ghost most: { Self → ℕ };

    /// A queue of this capacity, and its first pass.
    fn make(alloc: Global, capacity: usize) -> Result<(Self, Self::Pass), AllocError>
        requires { 0 < capacity }
        ensures most { IfOk result (λ r. most r.0 ≡ capacity) }
        ensures pass { IfOk result (λ r. is_pass r.0 r.1 × (view_of r.1 ≡ newcomer)) };

    /// A pass for a sender of the picked lanes, by the taker's pass.
    fn deal<L: Dealt>(&self, pass: &mut Self::Pass) -> Self::Pass
        requires pass { is_pass self.now pass.old × ((view_of pass.old).taker ≡ true) }
        requires fresh { (l : Lane) → has_lane l L.lanes ≡ true → next_of l (view_of pass.old).takes.counts ≡ None }
        ensures pass { is_pass self.now pass.new × (view_of pass.new ≡ dealing L.lanes (view_of pass.old)) }
        ensures sender { is_pass self.now result × (view_of result ≡ dealt L.lanes) };

    /// Takes in what another pass knows.
    fn unite(&self, pass: &mut Self::Pass, theirs: Self::Pass)
        requires pass { is_pass self.now pass.old }
        requires theirs { is_pass self.now theirs }
        ensures pass { is_pass self.now pass.new }
        ensures joined { view_of pass.new ≡ pass_joined (view_of pass.old) (view_of theirs) };

    /// Takes the front, by the taker's pass.
    fn pop<R: Wait>(&self, rt: &R, pass: &mut Self::Pass) -> Option<Envelope>
        requires pass { is_pass self.now pass.old × ((view_of pass.old).taker ≡ true) }
        ensures pass { is_pass self.now pass.new }
        ensures popped { MatchOption result
            ((view_of pass.new ≡ view_of pass.old) × WasOnce 0 (BothSee W.world (view_of pass.old)))
            (λ x. IsTakersNext W.world (view_of pass.old) x × (view_of pass.new ≡ taken (view_of pass.old) x)) };
}
