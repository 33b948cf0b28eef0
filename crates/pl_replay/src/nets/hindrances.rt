//! Why moves are not enabled.

ghost use Rattle.pl_world.specs.declared.moves.Move.TheVariants.{Read, Task, Hand, Out};

use super::Net;
use pl_event::Stage;
use pl_head::Transport;
use pl_world::Move;

/// Why a move of a channel or of an executor is not enabled.
#[derive(Clone, Copy, Debug, PartialEq, Eq)]
pub enum Hindrance {
    /// No read step of the channel is left.
    NoReadStep,
    /// The next burst of the channel is held.
    BurstHeld,
    /// The queue of the executor is empty.
    EmptyQueue,
    /// The backlog of the executor is empty.
    EmptyBacklog,
    /// Each queue for which something waits there is full.
    FullQueues,
    /// No flushed byte of the channel waits.
    NothingFlushed,
    /// The head of the channel has failed by itself.
    HeadFailed,
}

impl<S: Stage, T: Transport> Net<S, T> {
    ghost use Rattle.pl_replay.specs.Hindrances.{TellsHindrance};

    /// Why a move is not enabled: None where it is, and where it names what is not there. `apply` makes a move that is there
    /// exactly where nothing hinders it.
    pub fn hindrance(&self, step: Move) -> Option<Hindrance>
        ensures { TellsHindrance S.meaning S.stands_after S.is_spent T.state T.may_refuse step self.now result }
    {
        match step {
            Move::Read(channel) => self.read_hindrance(channel),
            Move::Task(executor) => self.task_hindrance(executor),
            Move::Hand(executor) => self.hand_hindrance(executor),
            Move::Out(channel) => self.write_hindrance(channel),
        }
    }

    /// Why a channel makes no read step.
    fn read_hindrance(&self, channel: u16) -> Option<Hindrance>
        ensures { TellsHindrance S.meaning S.stands_after S.is_spent T.state T.may_refuse (Read channel) self.now result }
    {
        let head = self.head(channel)?;
        if !head.has_read_step() {
            return Some(Hindrance::NoReadStep);
        }
        if head.is_held() {
            return Some(Hindrance::BurstHeld);
        }
        None
    }

    /// Why an executor takes nothing.
    fn task_hindrance(&self, executor: u16) -> Option<Hindrance>
        ensures { TellsHindrance S.meaning S.stands_after S.is_spent T.state T.may_refuse (Task executor) self.now result }
    {
        let station = self.station(executor as usize)?;
        if station.queue().is_empty() {
            return Some(Hindrance::EmptyQueue);
        }
        None
    }

    /// Why an executor hands nothing over.
    fn hand_hindrance(&self, executor: u16) -> Option<Hindrance>
        ensures { TellsHindrance S.meaning S.stands_after S.is_spent T.state T.may_refuse (Hand executor) self.now result }
    {
        let station = self.station(executor as usize)?;
        if self.next_target(executor as usize).is_some() {
            return None;
        }
        if station.backlog_is_empty() {
            return Some(Hindrance::EmptyBacklog);
        }
        Some(Hindrance::FullQueues)
    }

    /// Why a channel writes nothing.
    fn write_hindrance(&self, channel: u16) -> Option<Hindrance>
        ensures { TellsHindrance S.meaning S.stands_after S.is_spent T.state T.may_refuse (Out channel) self.now result }
    {
        let head = self.head(channel)?;
        if !head.is_written() {
            return None;
        }
        if head.failure().is_some() {
            return Some(Hindrance::HeadFailed);
        }
        Some(Hindrance::NothingFlushed)
    }
}
