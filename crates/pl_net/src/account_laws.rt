//! What is on its way between two moves, as a law: its contract is the law.

ghost use Rattle.std.specs.Prelude.{◌≡◌, ◌==◌, ◌&&◌, ◌++◌, ◌≤◌, ℕ, List, Bool, [], true, false};
ghost use Rattle.pl_event.specs.declared.envelopes.Lane.{Lane};
ghost use Rattle.pl_event.specs.Worlds.{World};
ghost use Rattle.pl_context.specs.OutputsViews.{OutputsView};
ghost use Rattle.pl_context.specs.Stops.{has_stopped};
ghost use Rattle.pl_context.specs.WaitingViews.{Entry};
ghost use Rattle.pl_flow.specs.Flows.{point, on, IsFlow, past};
ghost use Rattle.pl_net.specs.NodesViews.{NodesView};
ghost use Rattle.pl_net.specs.Nets.{StationView, NetRuns, queue_at, stops_at, envelopes};
ghost use Rattle.pl_net.specs.Numbers.{handed_of, made_of};

/// Of each lane, what is queued follows what was taken, and what waits follows that: each is the next item of the lane, it
/// fits the world, and nothing follows an end or a failure. It goes up to all that was made, unless the lane was cut off by a
/// refused growth. Nothing of a lane is queued at another executor than the one it enters, nor waits at another than the one
/// that writes it, and nothing of any other lane is anywhere.
pub fn account_law()
    ensures order { (world : World) (v : NodesView) (x : ℕ) (stations : List StationView) (backlogs : ℕ → List (Entry Unit)) (work : OutputsView) → NetRuns world v x stations backlogs work
        → (l : Lane) → v.lanes.written l ≡ true
        → (over : Bool) × IsFlow world (point (v.lanes.taken l) over) (on l (queue_at stations (v.lanes.target l)) ++ on l (envelopes (backlogs (v.origin l)))) }
    ensures all { (world : World) (v : NodesView) (x : ℕ) (stations : List StationView) (backlogs : ℕ → List (Entry Unit)) (work : OutputsView) → NetRuns world v x stations backlogs work → work.items ≡ []
        → (l : Lane) → v.lanes.written l ≡ true → has_stopped (stops_at stations (v.origin l) (v.lanes.target l)) l ≡ false → has_stopped work.stopped l ≡ false
        → (over : Bool) × (past (point (v.lanes.taken l) over) (on l (queue_at stations (v.lanes.target l)) ++ on l (envelopes (backlogs (v.origin l)))) ≡ v.lanes.came l) }
    ensures elsewhere { (world : World) (v : NodesView) (x : ℕ) (stations : List StationView) (backlogs : ℕ → List (Entry Unit)) (work : OutputsView) → NetRuns world v x stations backlogs work
        → (y : ℕ) (l : Lane) → ((v.lanes.written l && (v.lanes.target l == y)) ≡ false → on l (queue_at stations y) ≡ []) × ((v.lanes.written l && (v.origin l == y)) ≡ false → on l (envelopes (backlogs y)) ≡ []) }
    // How many were taken, handed over and made: as many as the lane has come to, unless it was cut off; and of a lane inside
    // one executor all that was made was taken.
    ensures numbers { (world : World) (v : NodesView) (x : ℕ) (stations : List StationView) (backlogs : ℕ → List (Entry Unit)) (work : OutputsView) → NetRuns world v x stations backlogs work → work.items ≡ []
        → (l : Lane) → v.lanes.written l ≡ true → has_stopped (stops_at stations (v.origin l) (v.lanes.target l)) l ≡ false → has_stopped work.stopped l ≡ false
        → made_of v stations backlogs l ≡ (v.lanes.came l).next }
    ensures order_of_numbers { (v : NodesView) (stations : List StationView) (backlogs : ℕ → List (Entry Unit)) (l : Lane)
        → (v.lanes.taken l ≤ handed_of v stations l) × (handed_of v stations l ≤ made_of v stations backlogs l) }
    ensures direct { (world : World) (v : NodesView) (x : ℕ) (stations : List StationView) (backlogs : ℕ → List (Entry Unit)) (work : OutputsView) → NetRuns world v x stations backlogs work → work.items ≡ []
        → (l : Lane) → v.lanes.written l ≡ true → v.origin l ≡ v.lanes.target l → (handed_of v stations l ≡ v.lanes.taken l) × (made_of v stations backlogs l ≡ v.lanes.taken l) }
{}
