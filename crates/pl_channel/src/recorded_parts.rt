//! Recorded channels, before any move.

ghost use Rattle.std.specs.Prelude.{◌≡◌, ◌≤◌, All, Bool, IfOk, Some, slice_get, vec_len};
ghost use Rattle.pl_part.specs.Parts.{PartHolds};
ghost use Rattle.pl_world.specs.declared.limits.TheConstants.{MAX_CHANNELS};
ghost use Rattle.pl_world.specs.Plans.{Plan, channel_planned};
ghost use Rattle.pl_world.specs.PlanRules.{IsSmallChannel};
ghost use Rattle.pl_world.specs.Worlds.{IsUncalled};
ghost use Rattle.pl_channel.specs.Lanes.{world_of};
ghost use Rattle.pl_channel.specs.WholeParts.{AreWholeParts, IsWhole, HasNewStages, IsAtStart};

use pl_event::Stage;
use pl_head::{Head, Transport};
use pl_part::ChannelPart;
use pl_world::Recorded;
use std::alloc::{AllocError, Global};

/// Recorded channels before any move, each with its number.
pub fn whole_parts<S: Stage, T: Transport>(
    alloc: Global,
    recorded: Vec<Recorded<S, T>>,
) -> Result<Vec<ChannelPart<S, T>>, AllocError>
    requires count { vec_len recorded ≤ MAX_CHANNELS }
    requires small { All (λ r. IsSmallChannel (channel_planned S.meaning T.state r)) recorded.items }
    requires uncalled { All (λ r. IsUncalled (T.state r.transport)) recorded.items }
    ensures { IfOk result (λ parts. AreWholeParts S.meaning S.stands_after T.state recorded.items parts.items) }
{
    let mut parts = Vec::with_capacity(alloc, recorded.len())?;
    for record in recorded {
        let number = parts.len() as u16;
        parts.push(whole_part(alloc, number, record)?)?;
    }
    Ok(parts)
}

/// A recorded channel before any move: all its nodes in one part. It is channel `number` of its session.
pub fn whole_part<S: Stage, T: Transport>(
    alloc: Global,
    number: u16,
    recorded: Recorded<S, T>,
) -> Result<ChannelPart<S, T>, AllocError>
    requires uncalled { IsUncalled (T.state recorded.transport) }
    requires small { IsSmallChannel (channel_planned S.meaning T.state recorded) }
    ensures whole { IfOk result (λ part. IsWhole T.state number (channel_planned S.meaning T.state recorded) recorded.transport part) }
    ensures stages { IfOk result (λ part. HasNewStages S.meaning S.stands_after number recorded.pipeline.inbound recorded.pipeline.outbound part) }
    ensures unmoved { IfOk result (λ part. IsAtStart S.meaning part) }

    // It holds in the worlds of each plan in which it has this number.
    ensures holds { IfOk result (λ part. (refuses : Bool) (plan : Plan) → slice_get plan.channels number ≡ Some (channel_planned S.meaning T.state recorded)
        → PartHolds (world_of refuses plan) S.meaning S.stands_after T.state part) }
{
    let Recorded {
        pipeline,
        input,
        transport,
    } = recorded;
    let hop = pipeline.inbound() + 1 + pipeline.outbound();
    let low = pipeline.low();
    let high = pipeline.high();
    let turn = pipeline.turn();
    let (inbound, outbound, executors) = pipeline.into_parts();
    let head = Head::new(alloc, number, hop, input, transport, low, high);
    ChannelPart::whole(alloc, number, executors, inbound, outbound, turn, head)
}
