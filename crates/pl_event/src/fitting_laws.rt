//! What a reader of a lane has of the items that fit on it.

ghost use Rattle.std.specs.Prelude.{◌≡◌, ℕ, ◌+◌, ◌%◌, ◌==◌, ◌<◌, List, [], ◌∷◌, ◌++◌, length, slice_get, Some, true, false, Bool};
ghost use Rattle.pl_event.specs.declared.events.Event.{Event};
ghost use Rattle.pl_event.specs.declared.envelopes.Item.{Item};
ghost use Rattle.pl_event.specs.declared.envelopes.Item.TheVariants as item;
ghost use Rattle.pl_event.specs.Meaning.{IsPrefixOf};
ghost use Rattle.pl_event.specs.Fitting.{FitFrom, FitFromAsFlags, goes_on, events_of, flags_of};

/// What a reader has of items that fit: their events are how the content of the lane begins, and all of it where the
/// lane has ended in good order; nothing follows an end or a failure; flags begin with `false` and alternate.
pub fn fitting_law()
    ensures begins { (content : List Event) (items : List Item) → FitFrom content 0 items → IsPrefixOf (events_of items) content }
    ensures whole { (content : List Event) (items : List Item) → FitFrom content 0 (items ++ item.End ∷ []) → events_of items ≡ content }
    ensures last { (content : List Event) (items more : List Item) (i : Item) → goes_on i ≡ false → FitFrom content 0 (items ++ i ∷ more) → more ≡ [] }
    ensures flags { (items : List Item) (n : ℕ) (value : Bool) → FitFromAsFlags 0 items → slice_get (flags_of items) n ≡ Some value → value ≡ (n % 2 == 1) }
{}
