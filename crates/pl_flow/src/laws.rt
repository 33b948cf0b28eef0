//! What holds of flows, and of what nodes make. No one calls these: their contracts are the laws.

ghost use Rattle.std.specs.Prelude.{◌≡◌, ◌+◌, ◌<◌, ◌≤◌, ℕ, Bool, List, ◌∷◌, ◌++◌, length, Some, false, true};
ghost use Rattle.pl_event.specs.declared.events.Event.{Event};
ghost use Rattle.pl_event.specs.declared.envelopes.Envelope.{Envelope};
ghost use Rattle.pl_event.specs.declared.envelopes.Item.TheVariants as item;
ghost use Rattle.pl_event.specs.declared.envelopes.Kind.TheVariants.{Data};
ghost use Rattle.pl_event.specs.declared.envelopes.Lane.{Lane};
ghost use Rattle.pl_event.specs.declared.outcomes.Cause.{Cause};
ghost use Rattle.pl_event.specs.Meaning.{Meaning, up_of, down_of};
ghost use Rattle.pl_event.specs.Worlds.{World, content_of, may_fail};
ghost use Rattle.pl_context.specs.OutputsViews.{OutputsView, PutsAll, Appends, failure_of};
ghost use Rattle.pl_context.specs.Ports.{as_items};
ghost use Rattle.pl_flow.specs.Flows.{Point, on, IsGood, IsFlow, past};
ghost use Rattle.pl_flow.specs.Makes.{AreGood, AreNext, NoneStopped, Makes, made_all};
ghost use Rattle.pl_event.specs.declared.limits.TheConstants.{MAX_ITEMS};

/// Items that follow a point, and then items that follow those, follow it together.
pub fn flow_law()
    ensures { (world : World) (p : Point) (xs ys : List Envelope) → IsFlow world p xs → IsFlow world (past p xs) ys → IsFlow world p (xs ++ ys) }
{}

/// A failure for a cause that comes in this world may stand wherever an item of its lane may, and an end behind the last
/// event.
pub fn item_law()
    ensures stand_in { (world : World) (x : Envelope) → x.lane.kind ≡ Data → IsGood world x → IsGood world (record x { item = failure_of x.item }) }
    ensures failure { (world : World) (lane : Lane) (events : List Event) (n : ℕ) (cause : Cause) → lane.kind ≡ Data → content_of world lane ≡ Some events → length events + 1 < MAX_ITEMS
        → may_fail world cause ≡ true → n ≤ length events → IsGood world (record { lane = lane; number = n; item = item.Fail cause }) }
    ensures end { (world : World) (lane : Lane) (events : List Event) (n : ℕ) → lane.kind ≡ Data → content_of world lane ≡ Some events → length events + 1 < MAX_ITEMS
        → n ≡ length events → IsGood world (record { lane = lane; number = n; item = item.End }) }
{}

/// What is next on its lanes, in turn, is what nodes make: put one by one, some of it discarded or stood in for, or all of it
/// where there is room. What they make in two calls they make in one.
pub fn make_law()
    ensures put { (world : World) (writes : Lane → Bool) (from : Lane → Point) (xs : List Envelope) (before after : OutputsView) → AreNext world writes from xs → PutsAll before xs after
        → Makes world writes from (made_all from xs) before after }
    ensures append { (world : World) (writes : Lane → Bool) (from : Lane → Point) (xs : List Envelope) (before after : OutputsView) → AreNext world writes from xs
        → NoneStopped before.stopped xs → Appends before xs after → Makes world writes from (made_all from xs) before after }
    ensures join { (world : World) (writes : Lane → Bool) (from mid to : Lane → Point) (before between after : OutputsView) → Makes world writes from mid before between
        → Makes world writes mid to between after → Makes world writes from to before after }
{}

/// What a stage makes of the next event of its lane is next on its own lanes, where as much was made of those before it.
pub fn stage_flow_law()
    ensures up { (world : World) (m : Meaning) (lane : Lane) (events before after : List Event) (x : Event) (made : ℕ) → lane.kind ≡ Data → content_of world lane ≡ Some (up_of m events)
        → length (up_of m events) + 1 < MAX_ITEMS → before ++ x ∷ after ≡ events → made ≡ length (up_of m before) → AreGood world lane made (as_items (m.up before x)) }
    ensures down { (world : World) (m : Meaning) (lane : Lane) (events before after : List Event) (x : Event) (made : ℕ) → lane.kind ≡ Data → content_of world lane ≡ Some (down_of m events)
        → length (down_of m events) + 1 < MAX_ITEMS → before ++ x ∷ after ≡ events → made ≡ length (down_of m before) → AreGood world lane made (as_items (m.down before x)) }
{}
