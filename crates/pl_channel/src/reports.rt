//! What became of a channel, by its two ends.

ghost use Rattle.std.specs.Prelude.{◌≡◌, ℕ, Bool, false, List, Option, Some, IfOk, ◌&&◌, ◌||◌, is_some};
ghost use Rattle.pl_event.specs.declared.events.Event.{Event};
ghost use Rattle.pl_head.specs.Marks.{Change};
ghost use Rattle.pl_head.specs.HeadStand.{HeadStandsAfter, head_cause, first_cause, is_idle};
ghost use Rattle.pl_context.specs.Standings.{is_over, cause_of};
ghost use Rattle.pl_world.specs.Plans.{ChannelPlan, Plan};
ghost use Rattle.pl_world.specs.Reports.{IsChannelReport, KeepsToPlan, ReportsPlan, stands as stands_by_ends};
ghost use Rattle.pl_channel.specs.Ends.{EndsHold, ends_of};
ghost use Rattle.pl_channel.specs.PlanStand.{HeadKeepsPlan};

use pl_context::Tail;
use pl_event::{Cause, Sequence};
use pl_head::{Head, Transport};
use pl_world::{ChannelReport, Stands};
use std::alloc::{AllocError, Global};

/// What became of a channel, by its two ends: a copy, and they go on.
pub fn report<T: Transport>(
    alloc: Global,
    tail: &Tail,
    head: &Head<T>,
) -> Result<ChannelReport, AllocError>
    // It is the report of these ends, whichever events the head may have taken.
    ensures ends { IfOk result (λ report. (ys zs : List Event) (sizes : List Change) → HeadStandsAfter T.state head.now ys zs sizes
        → IsChannelReport (ends_of T.state tail.now head.now ys zs) report) }

    // Where they hold in a world of a plan, it keeps to that plan. Where in that world no lane is refused, and the head keeps
    // the plan, it is what two ends say that keep to the plan.
    ensures keeps { IfOk result (λ report. (refuses : Bool) (plan : Plan) (number : ℕ) (p : ChannelPlan) → EndsHold T.state refuses plan number p tail.now head.now → KeepsToPlan p report) }
    ensures planned { IfOk result (λ report. (plan : Plan) (number : ℕ) (p : ChannelPlan) → EndsHold T.state false plan number p tail.now head.now
        → HeadKeepsPlan T.state p head.now → ReportsPlan p report) }
{
    let (bytes, writes) = head.copies(alloc)?;
    Ok(ChannelReport {
        stands: stands(tail, head),
        tail: Sequence::from_vec(tail.record().to_vec(alloc)?),
        bytes,
        writes,
    })
}

/// The same of ends that are used no more: what the tail recorded and the transport accepted is moved.
pub fn into_report<T: Transport>(
    alloc: Global,
    tail: Tail,
    head: Head<T>,
) -> Result<ChannelReport, AllocError>
    ensures ends { IfOk result (λ report. (ys zs : List Event) (sizes : List Change) → HeadStandsAfter T.state head ys zs sizes
        → IsChannelReport (ends_of T.state tail head ys zs) report) }
    ensures keeps { IfOk result (λ report. (refuses : Bool) (plan : Plan) (number : ℕ) (p : ChannelPlan) → EndsHold T.state refuses plan number p tail head → KeepsToPlan p report) }
    ensures planned { IfOk result (λ report. (plan : Plan) (number : ℕ) (p : ChannelPlan) → EndsHold T.state false plan number p tail head
        → HeadKeepsPlan T.state p head → ReportsPlan p report) }
{
    let stands = stands(&tail, &head);
    let (bytes, writes) = head.into_written(alloc)?;
    Ok(ChannelReport {
        stands,
        tail: tail.into_record(),
        bytes,
        writes,
    })
}

/// How a channel stands, by its two ends: as its report has it.
pub fn stands<T: Transport>(tail: &Tail, head: &Head<T>) -> Stands
    ensures { (ys zs : List Event) (sizes : List Change) → HeadStandsAfter T.state head.now ys zs sizes
        → result ≡ stands_by_ends (ends_of T.state tail.now head.now ys zs) }
{
    match cause(tail, head) {
        Some(cause) => Stands::Failed(cause),
        None if are_over(tail, head) => Stands::Drained,
        None => Stands::Open,
    }
}

/// Why a channel has failed: its head by itself, or by a failure that it took, or else its tail. None where none has.
fn cause<T: Transport>(tail: &Tail, head: &Head<T>) -> Option<Cause>
    ensures { result ≡ first_cause (head_cause head.now) (cause_of tail.now.standing) }
{
    head.cause().or(tail.cause())
}

/// Whether its tail and its head have ended or failed, and no write is left to be made.
fn are_over<T: Transport>(tail: &Tail, head: &Head<T>) -> bool
    ensures { (ys zs : List Event) (sizes : List Change) → HeadStandsAfter T.state head.now ys zs sizes
        → result ≡ (is_over tail.now.standing && ((is_over head.now.standing || is_some head.now.failure) && is_idle T.state head.now ys)) }
{
    tail.is_ended() && head.is_ended() && head.is_written()
}
