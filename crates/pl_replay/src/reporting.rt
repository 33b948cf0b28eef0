//! What became of the channels, by the two ends of each.

ghost use Rattle.std.specs.Prelude.{◌≡◌, All, IfOk, Some};
ghost use Rattle.std.specs.List.{AllZip};
ghost use Rattle.pl_world.specs.Plans.{Plan};
ghost use Rattle.pl_world.specs.Reports.{AllReportPlan};
ghost use Rattle.pl_replay.specs.Reported.{AreDrained, HasEnds, HaveEnds, IsPartReport, IsPartStands, ReportsItsPlan};

use pl_channel::{into_report, report, stands};
use pl_context::Tail;
use pl_event::{Sequence, Stage};
use pl_head::{Head, Transport};
use pl_part::ChannelPart;
use pl_world::{ChannelReport, Stands};
use std::alloc::{AllocError, Global};

/// What became of each channel: copies, and they go on.
pub(crate) fn reports_of<S: Stage, T: Transport>(
    alloc: Global,
    parts: &[ChannelPart<S, T>],
) -> Result<Sequence<ChannelReport>, AllocError>
    requires ends { All HasEnds parts.now }
    ensures reports { IfOk result (λ reports. AllZip (IsPartReport T.state) parts.now reports) }
    ensures planned { IfOk result (λ reports. (plan : Plan) → HaveEnds T.state plan parts.now → AllReportPlan plan.channels reports) }
{
    let mut reports = Vec::with_capacity(alloc, parts.len())?;
    for part in parts {
        reports.push(report_of(alloc, part)?)?;
    }
    Ok(Sequence::from_vec(reports))
}

/// The same of parts that are used no more: what tails recorded and transports accepted is moved.
pub(crate) fn into_reports<S: Stage, T: Transport>(
    alloc: Global,
    parts: Vec<ChannelPart<S, T>>,
) -> Result<Sequence<ChannelReport>, AllocError>
    requires ends { All HasEnds parts.items }
    ensures reports { IfOk result (λ reports. AllZip (IsPartReport T.state) parts.items reports) }
    ensures planned { IfOk result (λ reports. (plan : Plan) → HaveEnds T.state plan parts.items → AllReportPlan plan.channels reports) }
{
    let mut moved = Vec::with_capacity(alloc, parts.len())?;
    for part in parts {
        moved.push(report_from(alloc, part)?)?;
    }
    Ok(Sequence::from_vec(moved))
}

/// Whether each channel is drained.
pub(crate) fn are_drained<S: Stage, T: Transport>(parts: &[ChannelPart<S, T>]) -> bool
    requires { All HasEnds parts.now }
    ensures { AreDrained T.state parts.now result }
{
    let mut drained = true;
    for part in parts {
        drained &= matches!(stands_of(part), Stands::Drained);
    }
    drained
}

/// What became of a part's channel: a copy.
fn report_of<S: Stage, T: Transport>(
    alloc: Global,
    part: &ChannelPart<S, T>,
) -> Result<ChannelReport, AllocError>
    requires { HasEnds part.now }
    ensures reports { IfOk result (λ report. IsPartReport T.state part.now report) }
    ensures planned { IfOk result (λ report. ReportsItsPlan T.state part.now report) }
{
    let (tail, head) = ends(part);
    report(alloc, tail, head)
}

/// The same of a part that is used no more.
fn report_from<S: Stage, T: Transport>(
    alloc: Global,
    part: ChannelPart<S, T>,
) -> Result<ChannelReport, AllocError>
    requires { HasEnds part }
    ensures reports { IfOk result (λ report. IsPartReport T.state part report) }
    ensures planned { IfOk result (λ report. ReportsItsPlan T.state part report) }
{
    let (tail, head) = part.into_ends();
    into_report(alloc, tail.unwrap(), head.unwrap())
}

/// How a part's channel stands.
fn stands_of<S: Stage, T: Transport>(part: &ChannelPart<S, T>) -> Stands
    requires { HasEnds part.now }
    ensures { IsPartStands T.state part.now result }
{
    let (tail, head) = ends(part);
    stands(tail, head)
}

/// The tail and the head of a part's channel.
fn ends<S: Stage, T: Transport>(part: &ChannelPart<S, T>) -> (&Tail, &Head<T>)
    requires { HasEnds part.now }
    ensures tail { part.now.path.tail ≡ Some result.0.now }
    ensures head { part.now.head ≡ Some result.1.now }
{
    (part.tail().unwrap(), part.head().unwrap())
}
