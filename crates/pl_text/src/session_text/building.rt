//! Builds the pipelines of a session whose members were read.

ghost use Rattle.std.specs.Prelude.{◌≡◌, ◌≢◌, [], map, All, IfOk, IfErr, OnOk, None, Some, is_some, Ok, Err, if◌then◌else◌};
ghost use Rattle.std.specs.List.{AllByRecursion};
ghost use Rattle.std.specs.Option.{option_copied};
ghost use Rattle.pl_build.specs.Names.{names_and_sizes};
ghost use Rattle.pl_build.specs.Pipelines.{index_of, without};
ghost use Rattle.pl_build.specs.Refusals.{grouping_fault, executor_count};
ghost use Rattle.pl_build.specs.Executors.{HasPlaced, sizes_of};
ghost use Rattle.pl_build.specs.declared.faults.BuildFault.TheVariants.{NoSuchName, Memory};
ghost use Rattle.pl_world.specs.Plans.{channel_planned};
ghost use Rattle.pl_world.specs.Sessions.{plan_of};
ghost use Rattle.pl_world.specs.Worlds.{FitsLimits, IsUncalled};
ghost use Rattle.pl_text.specs.SessionReading.{seen};
ghost use Rattle.pl_text.specs.SessionHandlers.{meaning_of};
ghost use Rattle.pl_text.specs.SessionOutlines.{IsHandlerWithin, IsEditWithin, IsChannelOutlineWithin, IsOutlineWithin};
ghost use Rattle.pl_text.specs.SessionBuilding.{Builds, IsChannelBuilt, all_edited, channels_built, edited, group_sizes, meant, pipeline_built, session_built};

use crate::session_text::names::Name;
use crate::session_text::outline::{
    Addition, ChannelOutline, Edit, GroupOutline, HandlerKind, Outline,
};
use pl_build::{BuildFault, Groups, PipelineBuilder};
use pl_event::{Sequence, Stage};
use pl_head::{MemoryTransport, ReadPlan, Transport};
use pl_stages::{
    CommandDecoder, FlushEvery, Handler, LengthFramer, LengthPrepender, LineEnd, LineFramer,
    LineService, ReplyEncoder,
};
use pl_world::{Recorded, Session, World};
use std::alloc::{AllocError, Global};

/// Builds a session of what its members say.
#[tactic(auto, unfolding(crate::specs::SessionBuilding::session_built))]
pub(crate) fn session_built(alloc: Global, outline: Outline) -> Result<Session, BuildFault>
    requires { IsOutlineWithin outline }
    ensures built { Builds (seen (plan_of ⟦<Handler as Stage>⟧.meaning ⟦<MemoryTransport as Transport>⟧.state) result) (session_built outline) }
    ensures uncalled { IfOk result (λ session. All (λ c. IsUncalled (⟦<MemoryTransport as Transport>⟧.state c.transport)) session.world.channels) }
{
    let Outline {
        capacity,
        loops,
        groups,
        channels,
    } = outline;
    let mut groups = groups_made(alloc, loops, groups.as_slice())?;
    let executors = groups.executors();
    let channels = channels_built(alloc, &mut groups, channels)?;
    Ok(Session {
        world: World::of(channels, executors),
        capacity,
    })
}

// ---- groups

/// The loops and the groups, with no handler placed yet.
fn groups_made(alloc: Global, loops: u16, groups: &[GroupOutline]) -> Result<Groups, BuildFault>
    ensures loops { IfOk result (λ made. made.loops ≡ loops) }
    ensures sizes { IfOk result (λ made. sizes_of made ≡ group_sizes groups.now) }
    ensures unused { IfOk result (λ made. HasPlaced made []) }
    ensures allowed { OnOk result (grouping_fault loops (group_sizes groups.now) ≡ None) }
    ensures refused { IfErr result (λ e. e ≢ Memory → grouping_fault loops (group_sizes groups.now) ≡ Some e) }
{
    let named = names_and_sizes(alloc, groups)?;
    Groups::new(alloc, loops, named.as_slice())
}

/// The groups as `Groups::new` takes them.
fn names_and_sizes(alloc: Global, groups: &[GroupOutline]) -> Result<Vec<(&str, u16)>, AllocError>
    ensures { IfOk result (λ named. names_and_sizes named.items ≡ group_sizes groups.now) }
{
    let mut named = Vec::with_capacity(alloc, groups.len())?;
    for group in groups {
        named.push((group.name.as_str(), group.size))?;
    }
    Ok(named)
}

// ---- channels

/// Builds the channels in order, over the same groups.
fn channels_built(
    alloc: Global,
    groups: &mut Groups,
    channels: Sequence<ChannelOutline>,
) -> Result<Sequence<Recorded<Handler, MemoryTransport>>, BuildFault>
    requires within { AllByRecursion IsChannelOutlineWithin channels }
    requires unused { HasPlaced groups.old [] }
    ensures built { Builds (seen (map (channel_planned ⟦<Handler as Stage>⟧.meaning ⟦<MemoryTransport as Transport>⟧.state)) result)
        (channels_built groups.old.loops (sizes_of groups.old) [] channels) }
    ensures fit { IfOk result (λ channels. All (FitsLimits ⟦<Handler as Stage>⟧.meaning ⟦<Handler as Stage>⟧.stands_after ⟦<MemoryTransport as Transport>⟧.state
        (executor_count groups.old.loops (sizes_of groups.old))) channels) }
{
    let mut built = Vec::with_capacity(alloc, channels.len())?;
    for channel in channels.into_vec() {
        built.push(channel_built(alloc, groups, channel)?)?;
    }
    Ok(Sequence::from_vec(built))
}

/// Makes the edits of a channel, sets its marks, and builds its pipeline as that of the next channel.
#[tactic(auto, unfolding(crate::specs::SessionBuilding::pipeline_built))]
fn channel_built(
    alloc: Global,
    groups: &mut Groups,
    channel: ChannelOutline,
) -> Result<Recorded<Handler, MemoryTransport>, BuildFault>
    requires { IsChannelOutlineWithin channel }
    ensures built { IfOk result (λ recorded. IsChannelBuilt groups.old groups.new channel (channel_planned ⟦<Handler as Stage>⟧.meaning ⟦<MemoryTransport as Transport>⟧.state recorded)) }
    ensures fits { IfOk result (FitsLimits ⟦<Handler as Stage>⟧.meaning ⟦<Handler as Stage>⟧.stands_after ⟦<MemoryTransport as Transport>⟧.state
        (executor_count groups.old.loops (sizes_of groups.old))) }
    ensures refused { IfErr result (λ e. e ≢ Memory → pipeline_built (sizes_of groups.old) channel ≡ Err e) }
    ensures same_groups { (groups.new.loops ≡ groups.old.loops) × (sizes_of groups.new ≡ sizes_of groups.old) }
{
    let mut builder = all_edited(alloc, channel.edits.as_slice())?;
    builder.marks(channel.low, channel.high)?;
    let pipeline = builder.build(groups)?;
    let transport = MemoryTransport::new(alloc, channel.window, channel.fail_at);
    let input = ReadPlan {
        bursts: channel.bursts,
        abort_after: channel.abort_after,
    };
    Ok(Recorded::new(pipeline, input, transport))
}

// ---- edits

/// A builder after these edits, in order.
fn all_edited(alloc: Global, edits: &[Edit]) -> Result<PipelineBuilder<Handler>, BuildFault>
    requires { AllByRecursion IsEditWithin edits.now }
    ensures { Builds (seen (λ builder. meant ⟦<Handler as Stage>⟧.meaning builder.handlers) result) (all_edited [] edits.now) }
{
    let mut builder = PipelineBuilder::new(alloc);
    for edit in edits {
        make_edit(alloc, &mut builder, edit)?;
    }
    Ok(builder)
}

/// Makes one edit.
#[tactic(auto, unfolding(crate::specs::SessionBuilding::edited))]
fn make_edit(
    alloc: Global,
    builder: &mut PipelineBuilder<Handler>,
    edit: &Edit,
) -> Result<(), BuildFault>
    requires { IsEditWithin edit.now }
    ensures { Builds (seen (λ _. meant ⟦<Handler as Stage>⟧.meaning builder.new.handlers) result)
        (edited (meant ⟦<Handler as Stage>⟧.meaning builder.old.handlers) edit.now) }
{
    match edit {
        Edit::First(addition) => {
            let stage = stage_of(alloc, addition.handler);
            builder.add_first(addition.name.as_str(), group_of(addition), stage)?;
            Ok(())
        }
        Edit::Last(addition) => {
            let stage = stage_of(alloc, addition.handler);
            builder.add_last(addition.name.as_str(), group_of(addition), stage)?;
            Ok(())
        }
        Edit::Before(at, addition) => {
            let (name, stage) = (addition.name.as_str(), stage_of(alloc, addition.handler));
            builder.add_before(at.as_str(), name, group_of(addition), stage)?;
            Ok(())
        }
        Edit::After(at, addition) => {
            let (name, stage) = (addition.name.as_str(), stage_of(alloc, addition.handler));
            builder.add_after(at.as_str(), name, group_of(addition), stage)?;
            Ok(())
        }
        Edit::Remove(name) => remove(builder, name),
    }
}

/// Takes the handler of this name out.
fn remove(builder: &mut PipelineBuilder<Handler>, name: &Name) -> Result<(), BuildFault>
    ensures { Builds (seen (λ _. meant ⟦<Handler as Stage>⟧.meaning builder.new.handlers) result)
        (if is_some (index_of name.now (meant ⟦<Handler as Stage>⟧.meaning builder.old.handlers))
        then Ok (without name.now (meant ⟦<Handler as Stage>⟧.meaning builder.old.handlers)) else Err NoSuchName) }
{
    builder.remove(name.as_str())?;
    Ok(())
}

// ---- handlers

/// The group that a handler runs on, if it is given one.
fn group_of(addition: &Addition) -> Option<&str>
    ensures { option_copied result ≡ addition.now.group }
{
    match &addition.group {
        Some(group) => Some(group.as_str()),
        None => None,
    }
}

/// A stage of this kind that has had no step.
fn stage_of(alloc: Global, kind: HandlerKind) -> Handler
    requires { IsHandlerWithin kind }
    ensures meaning { ⟦<Handler as Stage>⟧.meaning result ≡ meaning_of kind }
    ensures stands { ⟦<Handler as Stage>⟧.stands_after result [] }
{
    match kind {
        HandlerKind::Lines { max } => Handler::Lines(LineFramer::new(alloc, max).unwrap()),
        HandlerKind::Decode => Handler::Decode(CommandDecoder::new()),
        HandlerKind::LineEnd => Handler::LineEnd(LineEnd::new()),
        HandlerKind::Encode => Handler::Encode(ReplyEncoder::new()),
        HandlerKind::Service => Handler::Service(LineService::new(alloc)),
        HandlerKind::FlushEvery { n } => Handler::FlushEvery(FlushEvery::new(n).unwrap()),
        HandlerKind::Length { width, max } => {
            Handler::Length(LengthFramer::new(alloc, width, max).unwrap())
        }
        HandlerKind::Prepend { width } => Handler::Prepend(LengthPrepender::new(width).unwrap()),
    }
}
