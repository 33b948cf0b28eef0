//! Room of the counters of a mailbox.

ghost use Rattle.std.specs.Prelude.{◌≡◌, ◌<◌, ◌≤◌, ◌^◌, List, length, Some, false};
ghost use Rattle.pl_event.specs.declared.envelopes.Envelope.{Envelope};
ghost use Rattle.pl_event.specs.declared.envelopes.Lane.{Lane};
ghost use Rattle.pl_queue.specs.declared.limits.TheConstants.{MAX_LANES};
ghost use Rattle.pl_queue.specs.declared.views.SenderView.{SenderView};
ghost use Rattle.pl_queue.specs.Left.{send_counts_of};
ghost use Rattle.pl_queue.specs.Room.{IsCounted, all_pushes};
ghost use Rattle.pl_queue.specs.Rule.{Each};
ghost use Rattle.pl_queue.specs.Views.{sent_of, fresh_sends, after_offer};

/// No mailbox sees more than 2^45 pushes: a sender's pushes are those of its lanes, at the beginning and after each
/// `offer`; the numbers of a lane are below 2^32; and there are at most 8,192 lanes.
pub fn room_law()
    ensures begins { (lanes : List Lane) → IsCounted (fresh_sends lanes) }
    ensures goes_on { (s : SenderView) (x : Envelope) → IsCounted s → sent_of x.lane s.send_counts ≡ Some (x.number, false) → x.number < 2 ^ 32 → IsCounted (after_offer s x) }
    ensures room { (senders : List SenderView) → Each IsCounted senders → length (send_counts_of senders) ≤ MAX_LANES → all_pushes senders ≤ 2 ^ 45 }
{}
