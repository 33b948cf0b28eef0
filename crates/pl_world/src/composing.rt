//! The report of a session by composition of its handlers on whole lists.

ghost use Rattle.std.specs.Prelude.{◌≡◌, map, IfOk, IfErr};
ghost use Rattle.pl_world.specs.declared.faults.ReplayFault.TheVariants as fault;
ghost use Rattle.pl_world.specs.Plans.{channel_planned};
ghost use Rattle.pl_world.specs.Sessions.{plan_of};
ghost use Rattle.pl_world.specs.Reports.{whole_report};

use crate::chains::{Toward, pass, pass_all};
use crate::faults::ReplayFault;
use crate::recorded_events::recorded_events;
use crate::report::{ChannelReport, Report, Stands};
use crate::session::{Recorded, Session};
use crate::settling::settle_writes;
use crate::split_chain::{SplitChain, split_chain};
use crate::worlds::World;
use pl_event::{Sequence, Stage};
use pl_head::{MemoryTransport, Transport};
use pl_stages::Handler;
use std::alloc::Global;

/// The report of a session when all is read and written: each channel's handlers take its whole input, one handler
/// after another. Refused only as `Memory`.
pub fn plain(alloc: Global, session: Session) -> Result<Report, ReplayFault>
    ensures whole { IfOk result (λ report. report.channels ≡ map whole_report (plan_of ⟦<Handler as Stage>⟧.meaning ⟦<MemoryTransport as Transport>⟧.state session).channels) }
    ensures memory { IfErr result (λ e. e ≡ fault.Memory) }
{
    let Session { world, .. } = session;
    plain_world(alloc, world)
}

/// The report of a world when all is read and written, with stages and transports of any kind: each channel's handlers
/// take its whole input, one handler after another. Each byte is taken to be accepted, whatever the transports would
/// say. Refused only as `Memory`.
pub fn plain_world<S: Stage, T: Transport>(
    alloc: Global,
    world: World<S, T>,
) -> Result<Report, ReplayFault>
    ensures whole { IfOk result (λ report. report.channels ≡ map whole_report (map (channel_planned S.meaning T.state) world.channels)) }
    ensures memory { IfErr result (λ e. e ≡ fault.Memory) }
{
    let reports = whole_reports(alloc, world.into_channels().into_vec())?;
    Ok(Report {
        channels: Sequence::from_vec(reports),
    })
}

/// The report of each channel, in order.
fn whole_reports<S: Stage, T: Transport>(
    alloc: Global,
    recorded: Vec<Recorded<S, T>>,
) -> Result<Vec<ChannelReport>, ReplayFault>
    ensures whole { IfOk result (λ reports. reports.items ≡ map whole_report (map (channel_planned S.meaning T.state) recorded.items)) }
    ensures memory { IfErr result (λ e. e ≡ fault.Memory) }
{
    let mut reports = Vec::with_capacity(alloc, recorded.len())?;
    for record in recorded {
        let report = whole(alloc, record)?;
        reports.push(report)?;
    }
    Ok(reports)
}

/// The report of a channel: its handlers take its whole input as one list, hop by hop, and what comes out downwards is
/// settled.
fn whole<S: Stage, T: Transport>(
    alloc: Global,
    recorded: Recorded<S, T>,
) -> Result<ChannelReport, ReplayFault>
    ensures whole { IfOk result (λ report. report ≡ whole_report (channel_planned S.meaning T.state recorded)) }
    ensures memory { IfErr result (λ e. e ≡ fault.Memory) }
{
    let Recorded {
        pipeline,
        input,
        ..
    } = recorded;
    let hop = pipeline.turn();
    let (inbound, outbound) = pipeline.into_chains();
    let SplitChain {
        before,
        turn,
        after,
    } = split_chain(inbound, hop)?;
    let events = recorded_events(alloc, input.bursts)?;
    let at_turn = pass_all(alloc, Toward::Tail, before, events)?;
    let made = pass(alloc, turn, at_turn)?;
    let at_tail = pass_all(alloc, Toward::Tail, after, made.up)?;
    let at_head = pass_all(alloc, Toward::Head, outbound, made.down)?;
    let (bytes, writes) = settle_writes(alloc, at_head)?;
    Ok(ChannelReport {
        stands: Stands::Drained,
        tail: Sequence::from_vec(at_tail),
        bytes,
        writes,
    })
}
