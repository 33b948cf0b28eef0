//! What the rules say of the owner's seat, of the head's, and of all others. Every step on a word keeps its rule, so it is
//! so at every moment.

ghost use Rattle.std.specs.Prelude.{◌≡◌, ℕ, ◌+◌, ◌*◌, ◌<◌, ◌≤◌, List, slice_index, Some, true};
ghost use Rattle.pl_event.specs.declared.outcomes.Outcome.{Outcome};
ghost use Rattle.pl_words.specs.declared.admission_steps.AdmissionNotes.{AdmissionNotes};
ghost use Rattle.pl_words.specs.declared.watermark_steps.WatermarkNotes.{WatermarkNotes};
ghost use Rattle.pl_words.specs.declared.promise_steps.PromiseNotes.{PromiseNotes};
ghost use Rattle.pl_words.specs.declared.promise_steps.RowSize.{RowSize};
ghost use Rattle.pl_words.specs.declared.status.Status.TheVariants.{Closed};
ghost use Rattle.pl_words.specs.Names.{IsAmong};
ghost use Rattle.pl_words.specs.Phases.{rank};
ghost use Rattle.pl_words.specs.AdmissionRule.{IsAdmission, total, kept_and_trial, run_given};
ghost use Rattle.pl_words.specs.WatermarkRule.{IsWatermark, bit};
ghost use Rattle.pl_words.specs.PromiseRule.{IsRow, SomeSettled, at, code};

/// Of the owner's seat, and of any other.
pub fn admission_law()
    // The word is four times what all seats count, plus the phase.
    ensures word { (senders : ℕ) (words : List ℕ) (notes : List AdmissionNotes) (owner : AdmissionNotes) → IsAdmission senders words notes → IsAmong notes owner → owner.owns ≡ true
        → slice_index words 0 ≡ 4 * total kept_and_trial notes + rank owner.phase }

    // No seat has seen a phase above the owner's.
    ensures seen { (senders : ℕ) (words : List ℕ) (notes : List AdmissionNotes) (owner v : AdmissionNotes) → IsAdmission senders words notes → IsAmong notes owner → owner.owns ≡ true
        → IsAmong notes v → rank v.seen ≤ rank owner.phase }

    // There is a trial, and what is given up late, only where the word is closed.
    ensures trial { (senders : ℕ) (words : List ℕ) (notes : List AdmissionNotes) (owner v : AdmissionNotes) → IsAdmission senders words notes → IsAmong notes owner → owner.owns ≡ true
        → IsAmong notes v → 0 < v.trial + v.late → owner.phase ≡ Closed }

    // Once it is closed, kept and late of all seats are the owner's run count.
    ensures closed { (senders : ℕ) (words : List ℕ) (notes : List AdmissionNotes) (owner : AdmissionNotes) → IsAdmission senders words notes → IsAmong notes owner → owner.owns ≡ true
        → owner.phase ≡ Closed → total run_given notes ≡ owner.run }
{}

/// Of the head's seat, and of any reader's.
pub fn mark_law()
    // The word is twice the sets of the head, plus the flag that it set last.
    ensures word { (words : List ℕ) (notes : List WatermarkNotes) (head : WatermarkNotes) → IsWatermark words notes → IsAmong notes head → head.is_head ≡ true
        → slice_index words 0 ≡ 2 * head.sets + bit head.flag }

    // No seat has seen a version above the head's, and who has seen that one has seen the head's flag.
    ensures version { (words : List ℕ) (notes : List WatermarkNotes) (head v : WatermarkNotes) → IsWatermark words notes → IsAmong notes head → head.is_head ≡ true
        → IsAmong notes v → v.version ≤ head.sets }
    ensures flag { (words : List ℕ) (notes : List WatermarkNotes) (head v : WatermarkNotes) → IsWatermark words notes → IsAmong notes head → head.is_head ≡ true
        → IsAmong notes v → v.version ≡ head.sets → v.unwritable ≡ head.flag }
{}

/// Of any two seats of a row.
pub fn promise_law()
    // What a seat has seen of a promise is what its word has.
    ensures word { (size : RowSize) (words : List ℕ) (notes : List PromiseNotes) (v : PromiseNotes) (n : ℕ) (outcome : Outcome) → IsRow size words notes → IsAmong notes v
        → at v.seen n ≡ Some outcome → slice_index words n ≡ code outcome }

    // And some seat settled it so.
    ensures settled { (size : RowSize) (words : List ℕ) (notes : List PromiseNotes) (v : PromiseNotes) (n : ℕ) (outcome : Outcome) → IsRow size words notes → IsAmong notes v
        → at v.seen n ≡ Some outcome → SomeSettled notes n outcome }

    // So two seats that have seen an outcome of it have seen the same.
    ensures agree { (size : RowSize) (words : List ℕ) (notes : List PromiseNotes) (v w : PromiseNotes) (n : ℕ) (first second : Outcome) → IsRow size words notes → IsAmong notes v
        → IsAmong notes w → at v.seen n ≡ Some first → at w.seen n ≡ Some second → first ≡ second }
{}
