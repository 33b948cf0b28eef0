//! What holds of a post at every moment, and once it is closed.

ghost use Rattle.std.specs.Prelude.{◌≡◌, ℕ, [], slice_index};
ghost use Rattle.pl_event.specs.Worlds.{World};
ghost use Rattle.pl_queue.specs.Rule.{Each};
ghost use Rattle.pl_words.specs.declared.admission_steps.AdmissionNotes.{AdmissionNotes};
ghost use Rattle.pl_words.specs.declared.status.Status.TheVariants.{Closed};
ghost use Rattle.pl_words.specs.AdmissionRule.{tried};
ghost use Rattle.pl_words.specs.Phases.{phase_in};
ghost use Rattle.pl_post.specs.Moments.{Moment, IsPost, TakenOrQueued, AllTaken};

/// Of a post with its owner and all its seats, at any moment.
pub fn post_law()
    // Lane by lane, what was ever sent is what was taken, and then what is queued.
    ensures lanes { (world : World) (senders : ℕ) (m : Moment) → IsPost world senders m → Each (λ s. TakenOrQueued m.items m.owner.pass.takes s.pass.sends) m.seats }

    // Once it is closed nothing is queued: what was ever sent was taken, and is as many as the owner closed with. No
    // admission is there for anything else, so no send is under way that could still push.
    ensures nothing { (world : World) (senders : ℕ) (m : Moment) → IsPost world senders m → m.owner.notes.phase ≡ Closed → m.items ≡ [] }
    ensures taken { (world : World) (senders : ℕ) (m : Moment) → IsPost world senders m → m.owner.notes.phase ≡ Closed → Each (AllTaken m.owner.pass.takes) m.seats }
    ensures run { (world : World) (senders : ℕ) (m : Moment) → IsPost world senders m → m.owner.notes.phase ≡ Closed → m.owner.notes.run ≡ m.owner.pass.takes.pops }

    // And nobody is admitted any more: whoever tries sees it closed, and keeps what it has kept.
    ensures last { (world : World) (senders : ℕ) (m : Moment) (seat : AdmissionNotes) → IsPost world senders m → m.owner.notes.phase ≡ Closed
        → ((tried seat (phase_in (slice_index m.words 0))).seen ≡ Closed) × ((tried seat (phase_in (slice_index m.words 0))).kept ≡ seat.kept) }
{}
