//! Replays a session on its executors by a schedule.

ghost use Rattle.std.specs.Prelude.{◌≡◌, ◌≤◌, Err, false, IfOk, map};
ghost use Rattle.std.specs.List.{list_all};
ghost use Rattle.pl_world.specs.declared.faults.ReplayFault.TheVariants as fault;
ghost use Rattle.pl_world.specs.declared.limits.TheConstants.{MAX_CAPACITY};
ghost use Rattle.pl_world.specs.Plans.{planned};
ghost use Rattle.pl_world.specs.Sessions.{plan_of};
ghost use Rattle.pl_replay.specs.MoveModel.{is_there};
ghost use Rattle.pl_replay.specs.Replays.{IsReplayed};
ghost use Rattle.pl_replay.specs.Starts.{transports_of};

use crate::nets::Net;
use pl_event::Stage;
use pl_head::{MemoryTransport, Transport};
use pl_stages::Handler;
use pl_world::{Move, ReplayFault, Report, Session, World};
use std::alloc::Global;

/// Replays a session by a schedule, and reports what became of each channel.
///
/// A move that is not enabled is passed over: `Read` where no read step is left or it is held, `Task` where the queue is
/// empty, `Hand` where no item waits whose target has room, `Out` where no flushed byte waits or the head has failed by
/// itself. A move that names a channel or an executor that is not there refuses the whole replay as `NoSuch`, wherever it
/// stands in the schedule. A transport that fails, an abort, and a growth that is refused in a move end what they are for, as the
/// report tells, and the replay goes on. `Memory` is answered where a growth is refused for the replay itself: as it
/// starts, for a queue, or for the report.
pub fn replay(alloc: Global, session: Session, moves: &[Move]) -> Result<Report, ReplayFault>
    // The report is that of what the moves lead to, one after another, from the start of the session; whatever the
    // schedule, it begins what the handlers, composed on whole lists, make of the recorded input, and is all of it where a
    // channel is drained. Of each channel, whatever has failed, it is what two ends say that keep to the plan.
    ensures replayed { IfOk result (λ report. IsReplayed ⟦<Handler as Stage>⟧.meaning ⟦<Handler as Stage>⟧.stands_after ⟦<Handler as Stage>⟧.is_spent ⟦<MemoryTransport as Transport>⟧.state ⟦<MemoryTransport as Transport>⟧.may_refuse
        (plan_of ⟦<Handler as Stage>⟧.meaning ⟦<MemoryTransport as Transport>⟧.state session) (transports_of session.world.channels) moves.now report) }
    // `NoSuch` comes only where a move names what is not there. With such a move no answer is `Ok`, as `IsReplayed`
    // says: it is `NoSuch`, unless a growth is refused before.
    ensures no_such { result ≡ Err fault.NoSuch → list_all (is_there (plan_of ⟦<Handler as Stage>⟧.meaning ⟦<MemoryTransport as Transport>⟧.state session)) moves.now ≡ false }
{
    let Session { world, capacity } = session;
    replay_world(alloc, world, capacity, moves)
}

/// Makes all moves of a world of any stages and transports, whose queues hold `capacity` items each, from 1 to `MAX_CAPACITY`,
/// and reports what became of each channel. The moves are those of `replay`, and so are the refusals.
pub fn replay_world<S: Stage, T: Transport>(
    alloc: Global,
    world: World<S, T>,
    capacity: u32,
    moves: &[Move],
) -> Result<Report, ReplayFault>
    requires capacity { (1 ≤ capacity) × (capacity ≤ MAX_CAPACITY) }
    ensures replayed { IfOk result (λ report. IsReplayed S.meaning S.stands_after S.is_spent T.state T.may_refuse
        (planned S.meaning T.state capacity world.executors world.channels) (transports_of world.channels) moves.now report) }
    ensures no_such { result ≡ Err fault.NoSuch → list_all (is_there (planned S.meaning T.state capacity world.executors world.channels)) moves.now ≡ false }
{
    let mut net = Net::new(alloc, world, capacity)?;
    for step in moves {
        net.apply(*step)?;
    }
    net.into_report()
}
