//! A schedule is made here: moves of a session until none is enabled.

ghost use Rattle.std.specs.Prelude.{◌≡◌, ◌≤◌, ◌+◌, [], length, IfOk, Ok, false, if◌then◌else◌};
ghost use Rattle.std.specs.Option.{option_map_or};
ghost use Rattle.pl_text.specs.declared.moves_text.TheConstants.{MAX_MOVES};
ghost use Rattle.pl_world.specs.declared.limits.TheConstants.{MAX_CAPACITY};
ghost use Rattle.pl_world.specs.Plans.{planned};
ghost use Rattle.pl_world.specs.Sessions.{plan_of};
ghost use Rattle.pl_replay.specs.Replays.{IsReplayed};
ghost use Rattle.pl_replay.specs.Starts.{transports_of};
ghost use Rattle.pl_schedule.specs.Driven.{IsDriven};

mod choosing;

pub use choosing::Order;
use choosing::{Chooser, after, all_moves};
use pl_event::Stage;
use pl_head::{MemoryTransport, Transport};
use pl_replay::Net;
use pl_stages::Handler;
use pl_text::MAX_MOVES;
use pl_world::{Move, ReplayFault, Report, Session, World};
use std::alloc::Global;

/// The moves that were made of a session, and what they came to.
#[derive(Debug, Drop)]
pub struct Scheduled {
    pub moves: Vec<Move>,
    /// No move is enabled any more. Else there are `MAX_MOVES`.
    pub is_over: bool,
    pub report: Report,
}

/// Makes moves of a session until none is enabled, or there are `MAX_MOVES`. Where none is, it is drained if any schedule drains
/// it, whatever the order.
pub fn schedule(alloc: Global, session: Session, order: Order) -> Result<Scheduled, ReplayFault>
    // The report is that of the session's replay by the moves.
    ensures replayed { IfOk result (λ made. IsReplayed ⟦<Handler as Stage>⟧.meaning ⟦<Handler as Stage>⟧.stands_after ⟦<Handler as Stage>⟧.is_spent ⟦<MemoryTransport as Transport>⟧.state ⟦<MemoryTransport as Transport>⟧.may_refuse
        (plan_of ⟦<Handler as Stage>⟧.meaning ⟦<MemoryTransport as Transport>⟧.state session) (transports_of session.world.channels) made.moves.items made.report) }
    ensures few { IfOk result (λ made. length made.moves.items ≤ MAX_MOVES) }
    ensures all { IfOk result (λ made. made.is_over ≡ false → length made.moves.items ≡ MAX_MOVES) }
{
    let Session { world, capacity } = session;
    schedule_world(alloc, world, capacity, order)
}

/// The same of a world of any stages and transports, whose queues hold `capacity` items each, from 1 to `MAX_CAPACITY`.
pub fn schedule_world<S: Stage, T: Transport>(
    alloc: Global,
    world: World<S, T>,
    capacity: u32,
    order: Order,
) -> Result<Scheduled, ReplayFault>
    requires capacity { (1 ≤ capacity) × (capacity ≤ MAX_CAPACITY) }
    ensures replayed { IfOk result (λ made. IsReplayed S.meaning S.stands_after S.is_spent T.state T.may_refuse
        (planned S.meaning T.state capacity world.executors world.channels) (transports_of world.channels) made.moves.items made.report) }
    ensures few { IfOk result (λ made. length made.moves.items ≤ MAX_MOVES) }
    ensures all { IfOk result (λ made. made.is_over ≡ false → length made.moves.items ≡ MAX_MOVES) }
{
    let candidates = all_moves(alloc, world.channels().len(), world.executors())?;
    let mut chooser = Chooser::new(order);
    let mut net = Net::new(alloc, world, capacity)?;
    let mut moves = Vec::new(alloc);
    let is_over = drive(&mut net, candidates.as_slice(), &mut chooser, &mut moves)?;
    let report = net.into_report()?;
    Ok(Scheduled {
        moves,
        is_over,
        report,
    })
}

/// Makes moves until none of the candidates is enabled, or there are `MAX_MOVES`. It says whether none is.
fn drive<S: Stage, T: Transport>(
    net: &mut Net<S, T>,
    candidates: &[Move],
    chooser: &mut Chooser,
    moves: &mut Vec<Move>,
) -> Result<bool, ReplayFault>
    requires none { moves.old.items ≡ [] }
    ensures driven { IfOk result (λ _. IsDriven S.meaning S.stands_after S.is_spent T.state T.may_refuse net.old [] net.new moves.new.items) }
    ensures few { IfOk result (λ _. length moves.new.items ≤ MAX_MOVES) }
    ensures all { result ≡ Ok false → length moves.new.items ≡ MAX_MOVES }
{
    let mut at = chooser.start(candidates.len());
    for _ in 0..MAX_MOVES {
        let made = make_next(net, candidates, at, moves)?;
        match made {
            None => return Ok(true),
            Some(place) => at = chooser.next(place, candidates.len()),
        }
    }
    Ok(false)
}

/// Makes the first of the candidates that is enabled, from a place on and round to it again, and adds it. It says where that one
/// stands, and None where none is enabled.
fn make_next<S: Stage, T: Transport>(
    net: &mut Net<S, T>,
    candidates: &[Move],
    from: usize,
    moves: &mut Vec<Move>,
) -> Result<Option<usize>, ReplayFault>
    ensures driven { IfOk result (λ _. IsDriven S.meaning S.stands_after S.is_spent T.state T.may_refuse net.old moves.old.items net.new moves.new.items) }
    ensures count { IfOk result (λ made. length moves.new.items ≡ length moves.old.items + option_map_or (λ _. 1) made 0) }
{
    let mut at = from;
    for _ in candidates {
        let Some(step) = candidates.get(at).copied() else {
            return Ok(None);
        };
        let is_made = attempt(net, step, moves)?;
        if is_made {
            return Ok(Some(at));
        }
        at = after(at, candidates.len());
    }
    Ok(None)
}

/// Makes a move where it is enabled, and adds it then.
fn attempt<S: Stage, T: Transport>(
    net: &mut Net<S, T>,
    step: Move,
    moves: &mut Vec<Move>,
) -> Result<bool, ReplayFault>
    ensures driven { IfOk result (λ _. IsDriven S.meaning S.stands_after S.is_spent T.state T.may_refuse net.old moves.old.items net.new moves.new.items) }
    ensures count { IfOk result (λ is_made. length moves.new.items ≡ length moves.old.items + (if is_made then 1 else 0)) }
{
    let is_made = net.apply(step)?;
    if !is_made {
        return Ok(false);
    }
    moves.push(step)?;
    Ok(true)
}
