//! What is on its way in a net between two moves, as a law.

ghost use Rattle.std.specs.Prelude.{◌≡◌, ◌==◌, ◌&&◌, ◌++◌, ℕ, List, Bool, [], Some, slice_get, true, false};
ghost use Rattle.pl_event.specs.declared.envelopes.Lane.{Lane};
ghost use Rattle.pl_context.specs.Standings.{has_failed};
ghost use Rattle.pl_context.specs.ContextViews.{ContextView};
ghost use Rattle.pl_context.specs.Stops.{has_stopped};
ghost use Rattle.pl_context.specs.WaitingViews.{Entry};
ghost use Rattle.pl_flow.specs.Flows.{point, on, IsFlow, past};
ghost use Rattle.pl_net.specs.Nets.{queue_at, stops_at, envelopes};
ghost use Rattle.pl_net.specs.Numbers.{handed_of, made_of};
ghost use Rattle.pl_net.specs.declared.stations.Stations.{Stations};
ghost use Rattle.pl_part.specs.Parts.{ChannelPartView};
ghost use Rattle.pl_part.specs.Paths.{context_at, writer_hop};
ghost use Rattle.pl_channel.specs.Channels.{target_of, origin_of, taken_of, writes_of, came_of};
ghost use Rattle.pl_channel.specs.Lanes.{world_of};
ghost use Rattle.pl_world.specs.Plans.{Plan};
ghost use Rattle.pl_replay.specs.Given.{HasGiven};
ghost use Rattle.pl_replay.specs.NetStand.{NetStands};
ghost use Rattle.pl_replay.specs.Views.{channels_view};
ghost use Rattle.pl_replay.specs.declared.channels.Channels.{Channels};

use pl_event::Stage;
use pl_head::Transport;

/// Of each lane that a node of a net writes, what is queued follows what was taken, and what waits follows that: each is the
/// next item of the lane, it is what the plan's lane carries at its number, and nothing follows an end or a failure. It goes up
/// to all that was made, unless the lane was cut off by a refused growth. Nothing of a lane is queued at another executor than
/// the one it enters, nor waits at another than the one that writes it, and nothing of any other lane is anywhere.
pub fn account_law<S: Stage, T: Transport>()
    ensures order { (plan : Plan) (backlogs : ℕ → List (Entry Unit)) (net : Stations (Channels S T)) → NetStands S.meaning S.stands_after T.state plan backlogs net
        → (l : Lane) → writes_of S.meaning net.nodes.parts.items l ≡ true
        → (over : Bool) × IsFlow (world_of false plan) (point (taken_of net.nodes.parts.items l) over)
        (on l (queue_at net.stations.items (target_of net.nodes.parts.items l)) ++ on l (envelopes (backlogs (origin_of net.nodes.parts.items l)))) }
    ensures all { (plan : Plan) (backlogs : ℕ → List (Entry Unit)) (net : Stations (Channels S T)) → NetStands S.meaning S.stands_after T.state plan backlogs net
        → (l : Lane) → writes_of S.meaning net.nodes.parts.items l ≡ true
        → has_stopped (stops_at net.stations.items (origin_of net.nodes.parts.items l) (target_of net.nodes.parts.items l)) l ≡ false → has_stopped net.work.stopped l ≡ false
        → (over : Bool) × (past (point (taken_of net.nodes.parts.items l) over)
        (on l (queue_at net.stations.items (target_of net.nodes.parts.items l)) ++ on l (envelopes (backlogs (origin_of net.nodes.parts.items l)))) ≡ came_of S.meaning net.nodes.parts.items l) }
    ensures elsewhere { (plan : Plan) (backlogs : ℕ → List (Entry Unit)) (net : Stations (Channels S T)) → NetStands S.meaning S.stands_after T.state plan backlogs net
        → (y : ℕ) (l : Lane) → ((writes_of S.meaning net.nodes.parts.items l && (target_of net.nodes.parts.items l == y)) ≡ false → on l (queue_at net.stations.items y) ≡ [])
        × ((writes_of S.meaning net.nodes.parts.items l && (origin_of net.nodes.parts.items l == y)) ≡ false → on l (envelopes (backlogs y)) ≡ []) }
    // As many of a lane were taken, are queued and wait as it has come to, unless it was cut off; of a lane inside one executor all
    // that was made was taken.
    ensures numbers { (plan : Plan) (backlogs : ℕ → List (Entry Unit)) (net : Stations (Channels S T)) → NetStands S.meaning S.stands_after T.state plan backlogs net
        → (l : Lane) → writes_of S.meaning net.nodes.parts.items l ≡ true
        → has_stopped (stops_at net.stations.items (origin_of net.nodes.parts.items l) (target_of net.nodes.parts.items l)) l ≡ false → has_stopped net.work.stopped l ≡ false
        → made_of (channels_view S.meaning net.nodes.parts.items) net.stations.items backlogs l ≡ (came_of S.meaning net.nodes.parts.items l).next }
    ensures direct { (plan : Plan) (backlogs : ℕ → List (Entry Unit)) (net : Stations (Channels S T)) → NetStands S.meaning S.stands_after T.state plan backlogs net
        → (l : Lane) → writes_of S.meaning net.nodes.parts.items l ≡ true → origin_of net.nodes.parts.items l ≡ target_of net.nodes.parts.items l
        → (handed_of (channels_view S.meaning net.nodes.parts.items) net.stations.items l ≡ taken_of net.nodes.parts.items l)
        × (made_of (channels_view S.meaning net.nodes.parts.items) net.stations.items backlogs l ≡ taken_of net.nodes.parts.items l) }
    // A data lane that a context writes which has not failed has come so far as what its stage makes of the events that it has
    // taken, with the end just where the context has ended or, downwards, its stage has quit.
    ensures given { (plan : Plan) (backlogs : ℕ → List (Entry Unit)) (net : Stations (Channels S T)) → NetStands S.meaning S.stands_after T.state plan backlogs net
        → (l : Lane) (part : ChannelPartView S T) (c : ContextView S) → slice_get net.nodes.parts.items l.channel ≡ Some part → (l.hop == 0) ≡ false → context_at part.path (writer_hop part.path l.hop) ≡ Some c → has_failed c.standing ≡ false
        → HasGiven S.meaning (world_of false plan) c l (came_of S.meaning net.nodes.parts.items l) }
{
    pl_net::account_law()
}
