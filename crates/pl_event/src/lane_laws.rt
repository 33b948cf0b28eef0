//! What each lane of a pipeline brings, hop by hop.

ghost use Rattle.std.specs.Prelude.{◌≡◌, ℕ, ◌+◌, List, length, take, slice_get, Some, true, false};
ghost use Rattle.std.specs.List.{list_any};
ghost use Rattle.pl_event.specs.declared.events.Event.{Event};
ghost use Rattle.pl_event.specs.Meaning.{Meaning, IsPrefixOf, up_of, down_of};
ghost use Rattle.pl_event.specs.Paths.{is_turn};
ghost use Rattle.pl_event.specs.Lanes.{lane, written, turn_ended};

/// What each data lane brings: hop 0 the input; each hop up to the tail what the stage before it makes of the lane
/// before; the first hop past the tail what the turn writes; then what each outbound stage makes of the lane before.
pub fn lane_law()
    ensures input { (inbound out : List Meaning) (input : List Event) → lane inbound out input 0 ≡ input }
    ensures inbound { (inbound out : List Meaning) (input : List Event) (hop : ℕ) (m : Meaning) → slice_get inbound hop ≡ Some m
        → lane inbound out input (hop + 1) ≡ up_of m (lane inbound out input hop) }
    ensures written { (inbound out : List Meaning) (input : List Event) → lane inbound out input (length inbound + 1) ≡ written inbound input }
    // The turn, the first of the inbound chain, writes what it makes of its own lane, and has quit after what it says of it.
    ensures turn { (inbound out : List Meaning) (input : List Event) (hop : ℕ) (m : Meaning) → slice_get inbound hop ≡ Some m → is_turn m.direction ≡ true
        → list_any (λ n. is_turn n.direction) (take hop inbound) ≡ false
        → (lane inbound out input (length inbound + 1) ≡ down_of m (lane inbound out input hop)) × (turn_ended inbound input ≡ m.ended (lane inbound out input hop)) }
    ensures outbound { (inbound out : List Meaning) (input : List Event) (index : ℕ) (m : Meaning) → slice_get out index ≡ Some m
        → lane inbound out input (length inbound + 2 + index) ≡ down_of m (lane inbound out input (length inbound + 1 + index)) }

    // What a longer input brings begins with what a shorter one brings.
    ensures grows { (inbound out : List Meaning) (input more : List Event) (hop : ℕ) → IsPrefixOf input more → IsPrefixOf (lane inbound out input hop) (lane inbound out more hop) }
{}
