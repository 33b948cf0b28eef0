//! When all flags that a head sends are on their way.

ghost use Rattle.std.specs.Prelude.{◌≡◌, ◌≤◌, List, [], ◌∷◌, Bool, length, true, false};
ghost use Rattle.pl_event.specs.declared.envelopes.Lane.{Lane};
ghost use Rattle.pl_context.specs.declared.ports.Port.{Port};
ghost use Rattle.pl_context.specs.Stops.{has_stopped, HasPlaces, AreAmong};
ghost use Rattle.pl_context.specs.OutputsViews.{OutputsView};
ghost use Rattle.pl_head.specs.FlagLanes.{FlagsPass, AllSent};

/// Flags that pass, one after another, are all sent where the lane is open after them. On an open lane they are where
/// there was room for them, or no lane has stopped. A closed lane sends none.
pub fn flag_law()
    ensures open { (values : List Bool) (p p' : Port) (before after : OutputsView) → FlagsPass values p before p' after → p'.is_open ≡ true → AllSent values p before p' after }
    ensures room { (values : List Bool) (p p' : Port) (before after : OutputsView) → FlagsPass values p before p' after → p.is_open ≡ true
        → has_stopped before.stopped p.lane ≡ false → length values ≤ before.room → AllSent values p before p' after }
    ensures none_stopped { (values : List Bool) (p p' : Port) (before after : OutputsView) → FlagsPass values p before p' after → p.is_open ≡ true
        → has_stopped before.stopped p.lane ≡ false → after.stopped ≡ before.stopped → AllSent values p before p' after }
    ensures closed { (values : List Bool) (p p' : Port) (before after : OutputsView) → FlagsPass values p before p' after → p.is_open ≡ false → (p' ≡ p) × (after ≡ before) }

    // Lanes that have places have them still.
    ensures places { (values : List Bool) (p p' : Port) (before after : OutputsView) (lanes : List Lane) → FlagsPass values p before p' after
        → HasPlaces before.stopped lanes → AreAmong (p.lane ∷ []) lanes → HasPlaces after.stopped lanes }
{}
