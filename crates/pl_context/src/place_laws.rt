//! That reserved places last.

ghost use Rattle.std.specs.Prelude.{◌≤◌, ℕ, List, [], ◌∷◌, length, map};
ghost use Rattle.pl_event.specs.declared.envelopes.Envelope.{Envelope};
ghost use Rattle.pl_event.specs.declared.envelopes.Lane.{Lane};
ghost use Rattle.pl_context.specs.declared.added.Added.{Added};
ghost use Rattle.pl_context.specs.Stops.{StopsView, HasPlaces, AreAmong, no_stops};
ghost use Rattle.pl_context.specs.OutputsViews.{OutputsView, Puts, PutsAll};

/// Reserved places last: a new list has one for each lane, up to a given number, and lanes that have places have them still
/// whatever is put on the list on those lanes.
pub fn place_law()
    ensures start { (places : ℕ) (lanes : List Lane) → length lanes ≤ places → HasPlaces (no_stops places) lanes }
    ensures some { (s : StopsView) (lanes few : List Lane) → HasPlaces s lanes → AreAmong few lanes → HasPlaces s few }
    ensures put { (before after : OutputsView) (e : Envelope) (answer : Added) (lanes : List Lane) →
        HasPlaces before.stopped lanes → AreAmong (e.lane ∷ []) lanes → Puts before e answer after → HasPlaces after.stopped lanes }
    ensures all { (before after : OutputsView) (es : List Envelope) (lanes : List Lane) →
        HasPlaces before.stopped lanes → AreAmong (map (λ e. e.lane) es) lanes → PutsAll before es after → HasPlaces after.stopped lanes }
{}
