//! A lane that is refused.

ghost use Rattle.std.specs.Prelude.{◌≡◌, ◌+◌, ◌≤◌, length};
ghost use Rattle.pl_event.specs.declared.envelopes.Kind.{Kind};
ghost use Rattle.pl_event.specs.declared.envelopes.Kind.TheVariants as kind;
ghost use Rattle.std.specs.Prelude.{true};
ghost use Rattle.pl_context.specs.Standings.{is_over};
ghost use Rattle.pl_context.specs.Stops.{HasPlaces};
ghost use Rattle.pl_context.specs.ContextViews.{kind_taken};
ghost use Rattle.pl_event.specs.Worlds.{World};
ghost use Rattle.pl_flow.specs.LanesViews.{KeepsPlaces};
ghost use Rattle.pl_flow.specs.Makes.{Makes};
ghost use Rattle.pl_part.specs.ContextHolds.{ContextHolds, context_writes, context_came, context_lanes};
ghost use Rattle.pl_part.specs.Taking.{ContextRefused};
ghost use Rattle.pl_part.specs.Counts.{context_done};

use pl_context::{Context, Outputs};
use pl_event::{Cause, Kind, Lane, Stage};

/// The writer of a data lane fails with `Refused`, since nothing more of it is accepted. Of a flags lane a flag is lost, and
/// nothing else.
pub fn refuse_at<S: Stage>(context: &mut Context<S>, lane: Lane, work: &mut Outputs)
    requires holds { (world : World) × (world.refuses ≡ true) × ContextHolds world S.meaning S.stands_after context.old }
    requires places { HasPlaces work.old.stopped (context_lanes context.old) }
    ensures refused { ContextRefused lane.kind context.old work.old context.new work.new }
    ensures holds { (world : World) → world.refuses ≡ true → ContextHolds world S.meaning S.stands_after context.old → ContextHolds world S.meaning S.stands_after context.new }
    ensures meaning { S.meaning context.new.stage ≡ S.meaning context.old.stage }
    ensures same_node { (context.new.channel ≡ context.old.channel) × (context.new.hop ≡ context.old.hop) }
    ensures taken { (k : Kind) → kind_taken context.new k ≡ kind_taken context.old k }
    ensures lanes { context_lanes context.new ≡ context_lanes context.old }
    ensures over { lane.kind ≡ kind.Data → is_over context.new.standing ≡ true }
    ensures made { (world : World) → world.refuses ≡ true → ContextHolds world S.meaning S.stands_after context.old → Makes world (context_writes (S.meaning context.old.stage).direction context.old) (context_came (S.meaning context.old.stage).direction context.old) (context_came (S.meaning context.old.stage).direction context.new) work.old work.new }
    ensures placed { KeepsPlaces (context_lanes context.old) work.old.stopped work.new.stopped }
    ensures more { context_done context.old + length work.new.items ≤ context_done context.new + length work.old.items }
{
    match lane.kind {
        Kind::Data => context.fail(Cause::Refused, work),
        Kind::Flags => {}
    }
}
