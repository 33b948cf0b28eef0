//! A session, run by executors on threads of their own.

ghost use Rattle.std.specs.Prelude.{◌≡◌, ◌<◌, ◌≤◌, ℕ, IfOk, None, map, replicate};
ghost use Rattle.pl_world.specs.declared.limits.TheConstants.{MAX_CAPACITY};
ghost use Rattle.pl_world.specs.Plans.{planned};
ghost use Rattle.pl_world.specs.Sessions.{plan_of};
ghost use Rattle.pl_exec.specs.Reported.{IsRunReport};
ghost use Rattle.pl_exec.specs.RunStages.{IsRan};
ghost use Rattle.pl_exec.specs.SessionWords.{AreHeadSeatsOf, AreNewlySeated, HaveMarksOf, recorded_marks};
ghost use Rattle.pl_exec.specs.Starting.{IsRunOf};

use crate::lanes::lane_table;
use crate::opening::{executors, open_all};
use crate::planned::Planned;
use crate::reporting::{Ran, ran_of};
use crate::sharing::{channels_on, shares};
use crate::words::{HeadSeats, Seats, Words};
use pl_channel::{lane_count, places_between, whole_parts};
use pl_event::Stage;
use pl_head::{MemoryTransport, Transport};
use pl_queue::{Mailbox, RingBox, WaitingBox};
use pl_stages::Handler;
use pl_threads::{Gate, RunFault, run_all};
use pl_world::{Report, Session, World};
use std::alloc::{AllocError, Global};
use std::marker::Brand;
use std::sync::Wait;
use std::thread::Threads;

/// What the queues between executors are.
#[derive(Clone, Copy, Debug, PartialEq, Eq)]
pub enum QueueKind {
    /// Who hands something over waits for room.
    Waiting,
    /// A ring without locks. Who finds it full goes on with something else.
    Ring,
}

/// Runs a session: each executor in a thread of its own. All threads have ended when it answers; over the waiting queue it
/// may wait for ever (`docs/FORMATS.md`, "Program").
///
/// Errors: `Memory`, where memory is refused for what the run is made of, or for the report; `Spawn`, where a thread could not
/// be started: then no executor has made a turn.
pub fn run<G: Gate + Sync, R: Threads + Wait + Sync>(
    rt: &R,
    alloc: Global,
    session: Session,
    queue: QueueKind,
    gate: &G,
) -> Result<Report, RunFault>
    ensures report { IfOk result (λ report. IsRunReport (plan_of ⟦<Handler as Stage>⟧.meaning ⟦<MemoryTransport as Transport>⟧.state session) report) }
    // The gate was entered at the first turn of each executor.
    ensures entered { IfOk result (λ _. (e : ℕ) → e < session.world.executors → G.was_entered gate.now e 0) }
{
    let Session { world, capacity } = session;
    run_world(rt, alloc, world, capacity, queue, gate)
}

/// Runs a session as `run` does, while any thread that has a reader of these words looks at them. The words and the seats
/// are those that one `Words::new` gave for a session with the same marks in the same order of channels.
///
/// After each call on a channel's head its executor sets the channel's mark where the bytes that wait, or the flag, are
/// others than it set last, up to `MAX_SETS - 1` times; and it settles the promise of each write that has ended.
pub fn run_with<G: Gate + Sync, R: Threads + Wait + Sync>(
    rt: &R,
    alloc: Global,
    session: Session,
    queue: QueueKind,
    gate: &G,
    words: &Words,
    seats: HeadSeats,
) -> Result<Report, RunFault>
    requires seats { AreHeadSeatsOf words.now seats }
    requires marks { HaveMarksOf seats session.world.channels }
    ensures report { IfOk result (λ report. IsRunReport (plan_of ⟦<Handler as Stage>⟧.meaning ⟦<MemoryTransport as Transport>⟧.state session) report) }
    // The gate was entered at the first turn of each executor.
    ensures entered { IfOk result (λ _. (e : ℕ) → e < session.world.executors → G.was_entered gate.now e 0) }
{
    let Session { world, capacity } = session;
    let Ran { report, .. } = run_world_with(rt, alloc, world, capacity, queue, gate, words, seats)?;
    Ok(report)
}

/// Runs a world of any stages and transports, whose queues hold `capacity` items each, from 1 to `MAX_CAPACITY`. It answers as
/// `run` does.
pub fn run_world<S: Stage + Send, T: Transport + Send, G: Gate + Sync, R: Threads + Wait + Sync>(
    rt: &R,
    alloc: Global,
    world: World<S, T>,
    capacity: u32,
    queue: QueueKind,
    gate: &G,
) -> Result<Report, RunFault>
    requires capacity { (1 ≤ capacity) × (capacity ≤ MAX_CAPACITY) }
    ensures report { IfOk result (λ report. IsRunReport (planned S.meaning T.state capacity world.executors world.channels) report) }
    ensures entered { IfOk result (λ _. (e : ℕ) → e < world.executors → G.was_entered gate.now e 0) }
{
    let words = Words::none(alloc);
    let seats = no_seats(alloc, world.channels().len())?;
    let setting = Setting {
        rt,
        alloc,
        gate,
        words: &words,
        seats,
    };
    let Ran { report, .. } = run_planned::<Brand, S, T, G, R>(world, capacity, queue, setting)?;
    Ok(report)
}

/// Runs a world as `run_world` does, while any thread that has a reader of these words looks at them. The words and the
/// seats are those that one `Words::of_world`, or `Words::new`, gave for channels with the same marks in the same order. A
/// run changes the words as `run_with` does.
///
/// It gives the stages back too, each with how its context stood.
pub fn run_world_with<
    S: Stage + Send,
    T: Transport + Send,
    G: Gate + Sync,
    R: Threads + Wait + Sync,
>(
    rt: &R,
    alloc: Global,
    world: World<S, T>,
    capacity: u32,
    queue: QueueKind,
    gate: &G,
    words: &Words,
    seats: HeadSeats,
) -> Result<Ran<S>, RunFault>
    requires capacity { (1 ≤ capacity) × (capacity ≤ MAX_CAPACITY) }
    requires seats { AreHeadSeatsOf words.now seats }
    requires marks { HaveMarksOf seats world.channels }
    ensures ran { IfOk result (IsRan S.stands_after (planned S.meaning T.state capacity world.executors world.channels)) }
    ensures entered { IfOk result (λ _. (e : ℕ) → e < world.executors → G.was_entered gate.now e 0) }
{
    let seats = seats.by_channel(alloc)?;
    let setting = Setting {
        rt,
        alloc,
        gate,
        words,
        seats,
    };
    run_planned::<Brand, S, T, G, R>(world, capacity, queue, setting)
}

/// No seats, for so many channels.
fn no_seats(alloc: Global, count: usize) -> Result<Vec<Option<Seats>>, AllocError>
    ensures { IfOk result (λ seats. seats.items ≡ replicate count None) }
{
    let mut seats = Vec::with_capacity(alloc, count)?;
    for _channel in 0..count {
        seats.push(None)?;
    }
    Ok(seats)
}

/// What a run has beside its channels: the threads, the memory, the gate, and the words that its heads tell.
#[derive(Drop)]
struct Setting<'a, G, R> {
    rt: &'a R,
    alloc: Global,
    gate: &'a G,
    words: &'a Words,
    /// By channel the seats on its words, or none.
    seats: Vec<Option<Seats>>,
}

/// Runs the world of the plan, whose heads tell the words on which they have seats, over queues of this kind.
fn run_planned<
    W: Planned + Send + Sync,
    S: Stage + Send,
    T: Transport + Send,
    G: Gate + Sync,
    R: Threads + Wait + Sync,
>(
    world: World<S, T>,
    capacity: u32,
    queue: QueueKind,
    setting: Setting<'_, G, R>,
) -> Result<Ran<S>, RunFault>
    requires run { IsRunOf S.meaning T.state W.world W.plan capacity world }
    requires seated { AreNewlySeated setting.words.now (map recorded_marks world.channels) setting.seats.items }
    ensures ran { IfOk result (IsRan S.stands_after W.plan) }
    ensures entered { IfOk result (λ _. (e : ℕ) → e < W.plan.executors → G.was_entered setting.entry.gate.now e 0) }
{
    match queue {
        QueueKind::Waiting => run_by::<W, WaitingBox<W>, S, T, G, R>(world, capacity, setting),
        QueueKind::Ring => run_by::<W, RingBox<W>, S, T, G, R>(world, capacity, setting),
    }
}

/// Runs the world of the plan over mailboxes of one kind.
fn run_by<
    W: Planned + Send + Sync,
    M: Mailbox<W> + Drop + Send + Sync,
    S: Stage + Send,
    T: Transport + Send,
    G: Gate + Sync,
    R: Threads + Wait + Sync,
>(world: World<S, T>, capacity: u32, setting: Setting<'_, G, R>) -> Result<Ran<S>, RunFault>
where
    M::Sender: Send,
    M::Taker: Send,
    requires run { IsRunOf S.meaning T.state W.world W.plan capacity world }
    requires seated { AreNewlySeated setting.words.now (map recorded_marks world.channels) setting.seats.items }
    ensures ran { IfOk result (IsRan S.stands_after W.plan) }
    ensures entered { IfOk result (λ _. (e : ℕ) → e < W.plan.executors → G.was_entered setting.entry.gate.now e 0) }
{
    let Setting {
        rt,
        alloc,
        gate,
        words,
        seats,
    } = setting;
    let count = world.executors() as usize;
    let parts = whole_parts(alloc, world.into_channels().into_vec())?;
    let channels = parts.len();
    let data_lanes = lane_count(&parts);
    let places = places_between(alloc, count, &parts)?;
    let lanes = lane_table(alloc, &parts, count)?;
    let rows = channels_on(alloc, count, &parts)?;
    let nodes = shares(alloc, words, seats, parts, rows)?;
    let (inboxes, ends, columns) = open_all::<W, M>(alloc, lanes, capacity as usize)?;
    let executors = executors(alloc, &inboxes, ends, columns, nodes, data_lanes, &places)?;
    let finished = run_all(rt, alloc, gate, executors)?;
    Ok(ran_of(alloc, finished, channels)?)
}
