//! What the flags of a channel say, in the words of its two marks.

ghost use Rattle.std.specs.Prelude.{◌≡◌, ℕ, ◌+◌, ◌≤◌, ◌↔◌, [], ◌∷◌, ◌++◌, List, true, false};
ghost use Rattle.pl_head.specs.Marks.{Change, pending_after, levels, flags, is_unwritable, AlternateFrom, turning, IsExceeded, sizes_added, removed_by, IsCovered};

/// What sizes that are added and removed make of two marks.
pub fn watermark_law()
    // Pending is what was added less what was removed.
    ensures pending { (cs : List Change) → IsCovered 0 cs → pending_after cs + removed_by cs ≡ sizes_added cs }

    // Not writable exactly where some level was above high, and none since is below low.
    ensures unwritable { (low high : ℕ) (cs : List Change) → low ≤ high → (is_unwritable low high cs ≡ true) ↔ IsExceeded low high (levels cs) }

    // One size more sends one flag where it changes that, and else none.
    ensures change { (low high : ℕ) (cs : List Change) (c : Change) →
        flags low high (cs ++ c ∷ []) ≡ flags low high cs ++ turning (is_unwritable low high cs) (is_unwritable low high (cs ++ c ∷ [])) }

    // So the flags alternate, and the first says not writable.
    ensures alternate { (low high : ℕ) (cs : List Change) → AlternateFrom false (flags low high cs) }

    // With low 0 it never changes back.
    ensures low_zero { (high : ℕ) (cs more : List Change) → is_unwritable 0 high cs ≡ true → is_unwritable 0 high (cs ++ more) ≡ true }
{}
