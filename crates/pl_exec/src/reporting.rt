//! What became of each channel, by the nodes that all executors leave.

ghost use Rattle.std.specs.Prelude.{◌≡◌, IfOk, OnOk, length, map, replicate};
ghost use Rattle.std.specs.List.{AllZip, range_with_len};
ghost use Rattle.std.specs.Option.{option_or};
ghost use Rattle.pl_world.specs.PlanRules.{IsPlan};
ghost use Rattle.pl_exec.specs.ChannelRows.{IsChannelRow, by_channel};
ghost use Rattle.pl_exec.specs.Reported.{AreLeft, IsFinalReport, IsRunReport, nothing_found, with_part};
ghost use Rattle.pl_exec.specs.RunStages.{IsRan, filled_up, slots_in, with_stages};

use crate::lanes::empty_lists;
use crate::nodes::ExecutorNodes;
use crate::planned::Planned;
use pl_channel::into_report;
use pl_context::Tail;
use pl_event::{Sequence, Stage};
use pl_head::{Head, Transport};
use pl_part::{ChannelPart, KeptStage};
use pl_queue::Mailbox;
use pl_threads::Finished;
use pl_world::{ChannelReport, Report};
use std::alloc::{AllocError, Global};
use std::mem;

/// What a run leaves: the report, and the stages.
#[derive(Drop)]
pub struct Ran<S: Stage> {
    pub report: Report,
    /// By channel and by hop; none at the tail's.
    pub stages: Vec<Vec<Option<KeptStage<S>>>>,
}

/// The ends of a channel, as far as they were found.
#[derive(Drop)]
struct Found<T: Transport> {
    tail: Option<Tail>,
    head: Option<Head<T>>,
}

/// What became of each channel of the plan, and its stages, by the nodes that each of its executors has left.
pub(crate) fn ran_of<W: Planned, M: Mailbox<W> + Drop, S: Stage, T: Transport>(
    alloc: Global,
    finished: Vec<Finished<W, M, ExecutorNodes<'_, S, T>>>,
    channels: usize,
) -> Result<Ran<S>, AllocError>
    requires plan { IsPlan W.plan }
    requires executors { map (λ e. e.nodes.number) finished.items ≡ range_with_len 0 W.plan.executors }
    requires channels { channels ≡ length W.plan.channels }
    ensures ran { IfOk result (IsRan S.stands_after W.plan) }
{
    let mut found = none_found(alloc, channels)?;
    let mut stages = empty_lists(alloc, channels)?;
    for executor in finished {
        let ExecutorNodes { here, parts, .. } = executor.into_nodes();
        find_nodes(alloc, &mut found, &mut stages, here, parts)?;
    }
    let report = Report {
        channels: reports::<W, T>(alloc, found)?,
    };
    Ok(Ran { report, stages })
}

/// So many channels, of which no end was found.
fn none_found<T: Transport>(alloc: Global, channels: usize) -> Result<Vec<Found<T>>, AllocError>
    ensures { IfOk result (λ found. found.items ≡ replicate channels nothing_found) }
{
    let mut found = Vec::with_capacity(alloc, channels)?;
    for _channel in 0..channels {
        found.push(Found {
            tail: None,
            head: None,
        })?;
    }
    Ok(found)
}

/// Notes which ends and stages are among the nodes of an executor: those of the channels that have a node there, in this order.
fn find_nodes<S: Stage, T: Transport>(
    alloc: Global,
    found: &mut Vec<Found<T>>,
    stages: &mut Vec<Vec<Option<KeptStage<S>>>>,
    here: Vec<usize>,
    parts: Vec<ChannelPart<S, T>>,
) -> Result<(), AllocError>
    requires row { IsChannelRow (length found.old.items) here.items }
    requires count { length stages.old.items ≡ length found.old.items }
    requires parts { length parts.items ≡ length here.items }
    ensures ends { OnOk result (found.new.items ≡ by_channel with_part here.items parts.items found.old.items) }
    ensures stages { OnOk result (slots_in stages.new.items ≡ by_channel with_stages here.items parts.items (slots_in stages.old.items)) }
{
    let mut position = 0;
    for part in parts {
        let channel = here[position];
        find(alloc, &mut found[channel], &mut stages[channel], part)?;
        position += 1;
    }
    Ok(())
}

/// Notes which ends and stages are among the nodes of a part.
fn find<S: Stage, T: Transport>(
    alloc: Global,
    found: &mut Found<T>,
    stages: &mut Vec<Option<KeptStage<S>>>,
    part: ChannelPart<S, T>,
) -> Result<(), AllocError>
    ensures ends { OnOk result (found.new ≡ with_part found.old part) }
    ensures stages { OnOk result (stages.new.items ≡ with_stages stages.old.items part) }
{
    let (part_stages, tail, head) = part.into_stages_and_ends(alloc)?;
    found.tail = tail.or(found.tail.take());
    found.head = head.or(found.head.take());
    let others = mem::replace(stages, part_stages);
    add_stages(stages, others);
    Ok(())
}

/// Adds stages by hop, where there is none yet.
fn add_stages<S: Stage>(stages: &mut Vec<Option<KeptStage<S>>>, others: Vec<Option<KeptStage<S>>>)
    ensures { stages.new.items ≡ filled_up stages.old.items others.items }
{
    let mut hop = 0;
    for other in others {
        if hop >= stages.len() {
            return;
        }
        add_stage(&mut stages[hop], other);
        hop += 1;
    }
}

/// Adds a stage, where there is none yet.
fn add_stage<S: Stage>(slot: &mut Option<KeptStage<S>>, other: Option<KeptStage<S>>)
    ensures { slot.new ≡ option_or slot.old other }
{
    if slot.is_none() {
        *slot = other;
    }
}

/// What became of channels whose ends were found.
fn reports<W: Planned, T: Transport>(
    alloc: Global,
    ends: Vec<Found<T>>,
) -> Result<Sequence<ChannelReport>, AllocError>
    requires { AreLeft T.state W.plan ends.items }
    ensures ends { IfOk result (λ reports. AllZip (IsFinalReport T.state) ends.items reports) }
    ensures run { IfOk result (λ reports. IsRunReport W.plan (record { channels = reports })) }
{
    let mut reports = Vec::with_capacity(alloc, ends.len())?;
    for found in ends {
        let Found { tail, head } = found;
        reports.push(into_report(alloc, tail.unwrap(), head.unwrap())?)?;
    }
    Ok(Sequence::from_vec(reports))
}
