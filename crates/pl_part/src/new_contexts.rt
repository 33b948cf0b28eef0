//! Contexts that have taken nothing, at their hops.

ghost use Rattle.std.specs.Prelude.{◌≡◌, ℕ, ◌+◌, ◌≤◌, ◌++◌, [], List, length, slice_get, Some, OnOk, All, true, map, replicate, is_some};
ghost use Rattle.pl_context.specs.declared.contexts.TheConstants.{MAX_HANDLERS};
ghost use Rattle.pl_context.specs.ContextViews.{IsHop};
ghost use Rattle.pl_event.specs.Worlds.{World};
ghost use Rattle.std.specs.List.{sum_by};
ghost use Rattle.pl_part.specs.NewParts.{ArePlanned, AreNewSlots, new_slots};
ghost use Rattle.pl_part.specs.Counts.{slot_done};

use pl_context::Context;
use pl_event::Stage;
use std::alloc::{AllocError, Global};

/// Stages that have had no step stand at the next hops.
pub fn add_contexts<S: Stage>(
    alloc: Global,
    contexts: &mut Vec<Option<Context<S>>>,
    channel: u16,
    k: u16,
    stages: Vec<S>,
) -> Result<(), AllocError>
    requires fresh { All (λ stage. S.stands_after stage []) stages.items }
    requires few { length contexts.old.items + length stages.items ≤ MAX_HANDLERS + 1 }
    requires hops { (i : ℕ) (stage : S) → slice_get stages.items i ≡ Some stage → IsHop (S.meaning stage).direction (length contexts.old.items + i) k }
    ensures count { OnOk result (length contexts.new.items ≡ length contexts.old.items + length stages.items) }
    ensures slots { OnOk result (contexts.new.items ≡ contexts.old.items ++ new_slots S.meaning channel k (length contexts.old.items) stages.items) }
    ensures filled { OnOk result (map (λ slot. is_some slot) contexts.new.items ≡ map (λ slot. is_some slot) contexts.old.items ++ replicate (length stages.items) true) }
    ensures new { OnOk result ((world : World) (turn : ℕ) → ArePlanned world S.meaning channel k turn (length contexts.old.items) stages.items
        → AreNewSlots world S.meaning channel k turn S.stands_after contexts.old.items → AreNewSlots world S.meaning channel k turn S.stands_after contexts.new.items) }
    ensures done { OnOk result (sum_by (λ slot. slot_done slot) contexts.new.items ≡ sum_by (λ slot. slot_done slot) contexts.old.items) }
{
    for stage in stages {
        let hop = contexts.len() as u16;
        contexts.push(Some(Context::new(alloc, channel, hop, k, stage)))?;
    }
    Ok(())
}
