//! The channels and executors of a replay, and the moves that they make.

ghost use Rattle.std.specs.Prelude.{◌≡◌, ◌≤◌, All, ℕ, List, length, IfOk, IfErr, MatchOption, map, slice_get, Some};
ghost use Rattle.pl_context.specs.WaitingViews.{Entry};
ghost use Rattle.pl_context.specs.TailViews.{TailView};
ghost use Rattle.pl_part.specs.Keeping.{part_stages};
ghost use Rattle.pl_part.specs.Parts.{ChannelPartView};
ghost use Rattle.pl_world.specs.declared.faults.ReplayFault.TheVariants as fault;
ghost use Rattle.pl_world.specs.declared.limits.TheConstants.{MAX_CAPACITY};
ghost use Rattle.pl_world.specs.Plans.{Plan, planned};
ghost use Rattle.pl_channel.specs.WholeParts.{AreWholeParts};
ghost use Rattle.pl_replay.specs.Starts.{NetBegins, transports_of};
ghost use Rattle.std.specs.List.{AllZip};
ghost use Rattle.pl_world.specs.Reports.{AllKeepToPlan, AllReportPlan};
ghost use Rattle.pl_replay.specs.Reported.{AreDrained, HasEnds, IsPartReport};
ghost use Rattle.pl_replay.specs.LaneStages.{HasLaneStages};

mod hindrances;
mod looking;
mod watching;

use crate::channels::Channels;
use crate::idle::idle_stations;
use crate::kept::stages_of;
use crate::reporting::{are_drained, into_reports, reports_of};
pub use hindrances::Hindrance;
use pl_channel::{lane_count, whole_parts};
use pl_event::Stage;
use pl_head::Transport;
use pl_net::{NoWatch, Stations};
use pl_part::{ChannelPart, KeptStage};
use pl_world::{Move, ReplayFault, Report, World};
use std::alloc::Global;
use std::marker::Model;

/// A replay between two moves.
#[derive(Drop)]
pub struct Net<S: Stage, T: Transport> {
    alloc: Global,
    stations: Stations<Channels<S, T>>,
}

impl<S: Stage, T: Transport> Model for Net<S, T> {
    ghost use Rattle.std.specs.Prelude.{ℕ, List};
    ghost use Rattle.pl_context.specs.WaitingViews.{Entry};
    ghost use Rattle.pl_net.specs.declared.stations.Stations.{Stations};
    ghost use Rattle.pl_world.specs.Plans.{Plan};
    ghost use Rattle.pl_replay.specs.NetStand.{NetStands};
    ghost use Rattle.pl_replay.specs.declared.channels.Channels.{Channels};

    ghost Value = { Stations (Channels S T) };

    ghost view = { λ n. n.stations };

    ghost invariant = { λ n. (plan : Plan) × (backlogs : ℕ → List (Entry Unit)) × NetStands S.meaning S.stands_after T.state plan backlogs n.stations };
}

impl<S: Stage, T: Transport> Net<S, T> {
    ghost use Rattle.pl_replay.specs.Applied.{IsApplied};
    ghost use Rattle.pl_replay.specs.NetStand.{NetStands};

    /// A world before any move, whose queues hold at most `capacity` items each, from 1 to `MAX_CAPACITY`. An `Err` is
    /// `Memory`.
    pub fn new(alloc: Global, world: World<S, T>, capacity: u32) -> Result<Self, ReplayFault>
        requires capacity { (1 ≤ capacity) × (capacity ≤ MAX_CAPACITY) }
        ensures begins { IfOk result (λ net. NetBegins S.meaning S.stands_after T.state (planned S.meaning T.state capacity world.executors world.channels) (transports_of world.channels) net) }
        ensures whole { IfOk result (λ net. AreWholeParts S.meaning S.stands_after T.state world.channels net.nodes.parts.items) }
        ensures memory { IfErr result (λ e. e ≡ fault.Memory) }
    {
        let count = world.executors() as usize;
        let parts = whole_parts(alloc, world.into_channels().into_vec())?;
        let idle = idle_stations(alloc, count, parts.as_slice())?;
        let lanes = lane_count(parts.as_slice());
        let stations = Stations::new(alloc, capacity as usize, Channels { parts }, idle, lanes)?;
        Ok(Net { alloc, stations })
    }

    /// Makes a move, and answers whether it was enabled: one that was not changes nothing. A move that names what is
    /// not there is refused as `NoSuch`, which changes nothing. `Memory` is answered where the queue of an enabled hand-over could
    /// not grow: nothing was handed over, and the net goes on as it was. A growth that is refused in a move ends what it was for, as
    /// the report tells, and the move was made.
    pub fn apply(&mut self, step: Move) -> Result<bool, ReplayFault>
        ensures applied { IsApplied S.meaning S.stands_after S.is_spent T.state T.may_refuse step self.old result self.new }
    {
        self.apply_watched(step, &mut NoWatch)
    }

    /// Whether every channel is drained.
    pub fn drained(&self) -> bool
        ensures { AreDrained T.state self.now.nodes.parts.items result }
    {
        are_drained(self.parts())
    }

    /// What became of each channel: a copy, and the net goes on. An `Err` is `Memory`.
    pub fn report(&self) -> Result<Report, ReplayFault>
        ensures reports { IfOk result (λ report. AllZip (IsPartReport T.state) self.now.nodes.parts.items report.channels) }
        ensures kept { IfOk result (λ report. (plan : Plan) (backlogs : ℕ → List (Entry Unit)) → NetStands S.meaning S.stands_after T.state plan backlogs self.now
            → AllKeepToPlan plan.channels report.channels) }
        ensures planned { IfOk result (λ report. (plan : Plan) (backlogs : ℕ → List (Entry Unit)) → NetStands S.meaning S.stands_after T.state plan backlogs self.now
            → AllReportPlan plan.channels report.channels) }
        ensures memory { IfErr result (λ e. e ≡ fault.Memory) }
    {
        let channels = reports_of(self.alloc, self.parts())?;
        Ok(Report { channels })
    }

    /// The report of a net that is used no more. What each tail recorded and each transport accepted is moved into it,
    /// where `report` copies it. An `Err` is `Memory`.
    pub fn into_report(self) -> Result<Report, ReplayFault>
        ensures reports { IfOk result (λ report. AllZip (IsPartReport T.state) self.nodes.parts.items report.channels) }
        ensures kept { IfOk result (λ report. (plan : Plan) (backlogs : ℕ → List (Entry Unit)) → NetStands S.meaning S.stands_after T.state plan backlogs self
            → AllKeepToPlan plan.channels report.channels) }
        ensures planned { IfOk result (λ report. (plan : Plan) (backlogs : ℕ → List (Entry Unit)) → NetStands S.meaning S.stands_after T.state plan backlogs self
            → AllReportPlan plan.channels report.channels) }
        ensures memory { IfErr result (λ e. e ≡ fault.Memory) }
    {
        let Net { alloc, stations } = self;
        let Channels { parts } = stations.into_nodes();
        let channels = into_reports(alloc, parts)?;
        Ok(Report { channels })
    }

    /// Gives the net up for its stages, each with how its context stood: by channel and by hop, none at the tail's. An `Err` is
    /// `Memory`.
    pub fn into_stages(self) -> Result<Vec<Vec<Option<KeptStage<S>>>>, ReplayFault>
        ensures stages { IfOk result (λ channels. map (λ stages. stages.items) channels.items ≡ map (λ part. part_stages part) self.nodes.parts.items) }
        // Each stands after the first events of the lane that its plan has at its hop, and where its context has ended after all.
        ensures lanes { IfOk result (λ channels. (plan : Plan) (backlogs : ℕ → List (Entry Unit)) → NetStands S.meaning S.stands_after T.state plan backlogs self
            → AllZip (HasLaneStages S.stands_after) plan.channels (map (λ stages. stages.items) channels.items)) }
        ensures memory { IfErr result (λ e. e ≡ fault.Memory) }
    {
        let Net { alloc, stations } = self;
        let Channels { parts } = stations.into_nodes();
        Ok(stages_of(alloc, parts)?)
    }

    /// Its channels and executors, as they are.
    pub fn into_stations(self) -> Stations<Channels<S, T>>
        ensures { result ≡ self }
    {
        let Net { stations, .. } = self;
        stations
    }

    /// The flags that a channel's tail has taken: false where the channel became not writable, true where it became
    /// writable again. None where there is no such channel.
    pub fn flags(&self, channel: u16) -> Option<&[bool]>
        ensures { MatchOption result (length self.now.nodes.parts.items ≤ channel)
            (λ flags. (part : ChannelPartView S T) × (tail : TailView) × (slice_get self.now.nodes.parts.items channel ≡ Some part) × (part.path.tail ≡ Some tail) × (flags.now ≡ tail.flags)) }
    {
        let tail = self.tail(channel)?;
        Some(tail.flags())
    }

    /// The channels. Each has its tail and its head.
    fn parts(&self) -> &[ChannelPart<S, T>]
        ensures items { result.now ≡ self.now.nodes.parts.items }
        ensures ends { All HasEnds result.now }
    {
        self.stations.nodes.parts.as_slice()
    }
}
