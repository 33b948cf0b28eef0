//! Executors in threads of their own, as many as a list has.

ghost use Rattle.std.specs.Prelude.{◌≡◌, [], map, All, IfOk, IfSome};
ghost use Rattle.std.specs.List.{AllZip};
ghost use Rattle.pl_threads.specs.Running.{EndsAs};
ghost use Rattle.pl_threads.specs.declared.threads.RunFault.TheVariants.{Memory};

use crate::executors::Executor;
use crate::finished::Finished;
use crate::gate::Gate;
use crate::nodes::OwnNodes;
use crate::start::Start;
use crossbeam_utils::sync::Parker;
use pl_event::Named;
use pl_queue::Mailbox;
use pl_words::OwnerSeat;
use std::alloc::{AllocError, Global};
use std::marker::Model;
use std::snapshot::Snapshot;
use std::sync::Wait;
use std::thread;
use std::thread::{PromisedHandle, Scope, Threads};

/// Why nothing comes back of any executor. Where `run_all` answers it, none of them made a turn.
#[derive(Clone, Copy, Debug, PartialEq, Eq)]
pub enum RunFault {
    /// Out of memory.
    Memory,
    /// A thread could not be started.
    Spawn,
}

impl From<AllocError> for RunFault {
    ghost from_gives = { λ _ e. e ≡ Memory };

    fn from(_error: AllocError) -> RunFault {
        RunFault::Memory
    }
}

/// What a thread gives is the executor of this number and this right to its queue, ended, which has entered the gate at its first
/// turn in the thread.
#[derive(Drop)]
struct Promised<G: Gate> {
    gate: Snapshot<G>,
    number: usize,
    turn: u64,
    owner: Snapshot<OwnerSeat>,
}

impl<G: Gate> Model for Promised<G> {
    ghost use Rattle.pl_threads.specs.Turning.{Threaded};

    ghost Value = { Threaded G };

    ghost view = { λ p. record { gate = p.gate.value; number = p.number; turn = p.turn; owner = p.owner.value } };
}

impl<G: Gate, W: Named, M: Mailbox<W> + Drop, N: OwnNodes<W> + Drop> thread::Promise<
    Option<Finished<W, M, N>>,
> for Promised<G> {
    ghost use Rattle.std.specs.Prelude.{◌≡◌, IfSome};
    ghost use Rattle.pl_threads.specs.Running.{EndsAs};

    ghost kept_by = { λ p r. IfSome r (λ finished. EndsAs N.view_of p.number p.owner finished × G.was_entered p.gate p.number p.turn) };
}

/// Starts each executor in a thread of its own. They wait there until they are told to begin.
fn start_each<
    's,
    'a: 's,
    E,
    W: Named + Send + Sync + 's,
    M: Mailbox<W> + Drop + Send + Sync + 's,
    N: OwnNodes<W> + Drop + Send + 's,
    G: Gate + Sync + 's,
    R: Threads + Wait + Sync + 's,
>(
    rt: &'s R,
    alloc: Global,
    scope: &'s Scope<'s, E>,
    gate: &'s G,
    start: &'s Start,
    executors: Vec<(Executor<'a, W, M, N>, Parker)>,
) -> Result<Vec<PromisedHandle<Option<Finished<W, M, N>>, Promised<G>>>, RunFault>
where
    M::Sender: Send + 's,
    M::Taker: Send + 's,
    ensures { IfOk result (λ handles. map (λ h. h.promise) handles.items ≡ map (λ e. record { gate = gate.now; number = e.0.number; turn = e.0.turns; owner = e.0.owner }) executors.entry.items) }
{
    let mut handles = Vec::with_capacity(alloc, executors.len())?;
    for (executor, parker) in executors {
        let promise = Promised {
            gate: Snapshot::of(gate),
            number: executor.number(),
            turn: executor.turns(),
            owner: Snapshot::of(executor.owner()),
        };
        let spawned = scope.spawn_with(
            promise,
            move || -> Option<Finished<W, M, N>>
                ensures { IfSome result (λ finished. EndsAs N.view_of executor.entry.number executor.entry.owner finished × G.was_entered gate.entry.now executor.entry.number executor.entry.turns) }
            { executor.run(rt, gate, start, parker) },
        );
        match spawned {
            Ok(handle) => handles.push(handle).map_err(AllocError::from)?,
            Err(_) => return Err(RunFault::Spawn),
        }
    }
    Ok(handles)
}

/// What all threads give, in their order, in a list that has room for it.
fn join_all<W: Named, M: Mailbox<W> + Drop, N: OwnNodes<W> + Drop, G: Gate, R: Threads>(
    rt: &R,
    handles: Vec<PromisedHandle<Option<Finished<W, M, N>>, Promised<G>>>,
    mut all: Vec<Finished<W, M, N>>,
) -> Result<Vec<Finished<W, M, N>>, RunFault>
    requires { all.items ≡ [] }
    ensures ended { IfOk result (λ all. AllZip (λ p f. EndsAs N.view_of p.number p.owner f) (map (λ h. h.promise) handles.items) all.items) }
    ensures entered { IfOk result (λ _. All (λ h. G.was_entered h.promise.gate h.promise.number h.promise.turn) handles.items) }
{
    for handle in handles {
        let Some(finished) = handle.join(rt) else {
            return Err(RunFault::Spawn);
        };
        all.push(finished).map_err(AllocError::from)?;
    }
    Ok(all)
}

/// Runs each executor, with the parker of its inbox, in a thread of its own, and gives them back, ended, in their order. No
/// executor makes a turn before all threads were started, and then each makes one at least. All threads that were started have
/// ended when it answers.
///
/// Errors: `Memory`, where memory is refused for a list; `Spawn`, where a thread could not be started. No executor has made a
/// turn then.
pub fn run_all<
    'a,
    W: Named + Send + Sync,
    M: Mailbox<W> + Drop + Send + Sync,
    N: OwnNodes<W> + Drop + Send,
    G: Gate + Sync,
    R: Threads + Wait + Sync,
>(
    rt: &R,
    alloc: Global,
    gate: &G,
    executors: Vec<(Executor<'a, W, M, N>, Parker)>,
) -> Result<Vec<Finished<W, M, N>>, RunFault>
where
    M::Sender: Send,
    M::Taker: Send,
    ensures ended { IfOk result (λ all. AllZip (λ e f. EndsAs N.view_of e.0.number e.0.owner f) executors.entry.items all.items) }
    // The gate was entered at the first turn of each.
    ensures entered { IfOk result (λ _. All (λ e. G.was_entered gate.now e.0.number e.0.turns) executors.entry.items) }
{
    let all = Vec::with_capacity(alloc, executors.len())?;
    let start = Start::new();
    let start = &start;
    thread::scope(
        thread::scope_env(),
        rt,
        |scope| -> Result<Vec<Finished<W, M, N>>, RunFault>
            requires { all.items ≡ [] }
            ensures ended { IfOk result (λ all. AllZip (λ e f. EndsAs N.view_of e.0.number e.0.owner f) executors.entry.items all.items) }
            ensures entered { IfOk result (λ _. All (λ e. G.was_entered gate.entry.now e.0.number e.0.turns) executors.entry.items) }
        {
            let handles = start_each(rt, alloc, scope, gate, start, executors);
            // They begin, or leave where one could not be started.
            start.decide(handles.is_ok());
            join_all(rt, handles?, all)
        },
    )
}
