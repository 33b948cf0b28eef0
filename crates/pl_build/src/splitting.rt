//! A list of handlers becomes the two chains of its path, and the executors of its hops.

ghost use Rattle.std.specs.Prelude.{◌≡◌, ◌≤◌, ◌++◌, [], length, map, filter, reverse, IfOk, OnOk, vec_len, vec_capacity, position, ◌<◌, ◌∷◌, if◌then◌else◌, ◌&&◌, not};
ghost use Rattle.pl_build.specs.Counts.{executor_now};
ghost use Rattle.pl_build.specs.Executors.{hop_executors};
ghost use Rattle.pl_build.specs.Pipelines.{stages_before_turn, inbound_handlers, outbound_handlers, is_inbound, is_outbound_stage, is_turn_stage, hop_of_turn};

use crate::grouping::Groups;
use crate::named_stages::NamedStage;
use pl_event::Stage;
use std::alloc::{AllocError, Global};

/// What building takes memory for: the executors, by hop, and room for the chains.
#[derive(Drop)]
pub(crate) struct Room<S> {
    pub(crate) executors: Vec<u16>,
    pub(crate) chains: Chains<S>,
}

/// The chains of a path, and the hop of its turn.
#[derive(Drop)]
pub(crate) struct Chains<S> {
    pub(crate) inbound: Vec<S>,
    /// The nearest to the turn first.
    pub(crate) outbound: Vec<S>,
    /// How many inbound stages are before the turn.
    pub(crate) turn: usize,
}

impl<S: Stage> Chains<S> {
    /// Chains without a stage, each with room for a given number.
    pub(crate) fn with_capacity(alloc: Global, capacity: usize) -> Result<Self, AllocError>
        ensures empty { IfOk result (λ chains. (chains.inbound.items ≡ []) × (chains.outbound.items ≡ []) × (chains.turn ≡ 0)) }
        ensures inbound { IfOk result (λ chains. capacity ≤ vec_capacity chains.inbound) }
        ensures outbound { IfOk result (λ chains. capacity ≤ vec_capacity chains.outbound) }
    {
        Ok(Chains {
            inbound: Vec::with_capacity(alloc, capacity)?,
            outbound: Vec::with_capacity(alloc, capacity)?,
            turn: 0,
        })
    }

    /// Moves a stage to the end of its chain, or lets go of an outbound one after the turn.
    fn add(&mut self, handler: NamedStage<S>, is_before: bool)
        requires inbound { vec_len self.old.inbound < vec_capacity self.old.inbound }
        requires outbound { vec_len self.old.outbound < vec_capacity self.old.outbound }
        ensures inbound { self.new.inbound.items ≡ self.old.inbound.items ++ map (λ h. h.stage) (filter (is_inbound S.meaning) (handler ∷ [])) }
        ensures outbound { self.new.outbound.items ≡ self.old.outbound.items ++ map (λ h. h.stage) (filter (is_outbound_stage S.meaning) (if is_before then handler ∷ [] else [])) }
        ensures inbound_room { vec_capacity self.old.inbound ≤ vec_capacity self.new.inbound }
        ensures outbound_room { vec_capacity self.old.outbound ≤ vec_capacity self.new.outbound }
        ensures turn { self.new.turn ≡ (if is_before then length self.new.inbound.items else self.old.turn) }
    {
        if handler.is_inbound() {
            let NamedStage { stage, .. } = handler;
            self.inbound.push(stage).unwrap();
        } else if is_before {
            let NamedStage { stage, .. } = handler;
            self.outbound.push(stage).unwrap();
        }
        if is_before {
            self.turn = self.inbound.len();
        }
    }
}

/// The executor of each hop, in the channel that comes next.
pub(crate) fn hop_executors<S: Stage>(
    alloc: Global,
    groups: &Groups,
    handlers: &[NamedStage<S>],
) -> Result<Vec<u16>, AllocError>
    ensures { IfOk result (λ executors. executors.items ≡ hop_executors (executor_now groups.now) S.meaning handlers.now) }
{
    let mut executors = Vec::new(alloc);
    add_inbound(&mut executors, groups, handlers)?;
    executors.push(groups.executor(&None))?;
    add_outbound(&mut executors, groups, before_turn(handlers))?;
    executors.push(groups.executor(&None))?;
    Ok(executors)
}

/// Adds the executor of each inbound handler, from the first to the last.
fn add_inbound<S: Stage>(
    executors: &mut Vec<u16>,
    groups: &Groups,
    handlers: &[NamedStage<S>],
) -> Result<(), AllocError>
    ensures { OnOk result (executors.new.items ≡ executors.old.items ++ map (λ handler. executor_now groups.now handler.group) (filter (is_inbound S.meaning) handlers.now)) }
{
    for handler in handlers {
        if handler.is_inbound() {
            executors.push(groups.executor(&handler.group))?;
        }
    }
    Ok(())
}

/// Adds the executor of each outbound handler, from the last to the first.
fn add_outbound<S: Stage>(
    executors: &mut Vec<u16>,
    groups: &Groups,
    handlers: &[NamedStage<S>],
) -> Result<(), AllocError>
    ensures { OnOk result (executors.new.items ≡ executors.old.items ++ map (λ handler. executor_now groups.now handler.group) (reverse (filter (is_outbound_stage S.meaning) handlers.now))) }
{
    let mut left = handlers;
    while let Some((last, rest)) = left.split_last() {
        if last.is_outbound() {
            executors.push(groups.executor(&last.group))?;
        }
        left = rest;
    }
    Ok(())
}

/// The index of the turn among all handlers.
fn turn_index<S: Stage>(handlers: &[NamedStage<S>]) -> Option<usize>
    ensures { result ≡ position (is_turn_stage S.meaning) handlers.now }
{
    handlers.iter().position(|handler| handler.is_turn())
}

/// The handlers before the turn.
fn before_turn<S: Stage>(handlers: &[NamedStage<S>]) -> &[NamedStage<S>]
    ensures { result.now ≡ stages_before_turn S.meaning handlers.now }
{
    match turn_index(handlers) {
        Some(index) => &handlers[..index],
        None => handlers,
    }
}

/// Moves the stages of the path into chains that have room for them, and lets go of those after the turn.
pub(crate) fn split<S: Stage>(handlers: Vec<NamedStage<S>>, chains: Chains<S>) -> Chains<S>
    requires empty { (chains.inbound.items ≡ []) × (chains.outbound.items ≡ []) × (chains.turn ≡ 0) }
    requires inbound { length handlers.items ≤ vec_capacity chains.inbound }
    requires outbound { length handlers.items ≤ vec_capacity chains.outbound }
    ensures inbound { result.inbound.items ≡ map (λ handler. handler.stage) (inbound_handlers S.meaning handlers.items) }
    ensures outbound { result.outbound.items ≡ map (λ handler. handler.stage) (outbound_handlers S.meaning handlers.items) }
    ensures turn { result.turn ≡ hop_of_turn S.meaning result.inbound.items }
{
    let mut chains = chains;
    let mut is_before = true;
    for handler in handlers {
        is_before = is_still_before(is_before, &handler);
        chains.add(handler, is_before);
    }
    chains.outbound.reverse();
    chains
}

/// Whether neither this handler nor one before it is the turn.
fn is_still_before<S: Stage>(is_before: bool, handler: &NamedStage<S>) -> bool
    ensures { result ≡ (is_before && not (is_turn_stage S.meaning handler.now)) }
{
    is_before && !handler.is_turn()
}
