//! Handlers that make one event of each, whatever came before: a mapping, and the two stages that are made of one.

ghost use Rattle.std.specs.Prelude.{◌≡◌, true, false, ◌++◌, ◌∷◌, [], IfOk, IsErr, OnOk, OnErr, ⊤};
ghost use Rattle.pl_event.specs.declared.events.Event.{Event};
ghost use Rattle.pl_event.specs.Mappings.{mapping_up, mapping_down, mapping_up-lawful, mapping_down-lawful};

use crate::events::Event;
use crate::stages::{Changed, Direction, Stage, StageFault, Stepped, Turned};
use std::alloc::{AllocError, Global};

/// One event made of each event, whatever came before (as Netty's `MessageToMessageCodec` is mostly used): [`MapUp`] and
/// [`MapDown`] make a [`Stage`] of it. An event that the handler isn't meant for is handed on as it is.
pub trait Mapping: Drop {
    /// What it makes of an event.
    ghost made_of: { Self → Event → Event };

    /// The event that it makes of this one. An `Err` is out of memory.
    fn map(&self, event: Event) -> Result<Event, AllocError>
        ensures { IfOk result (λ made. made ≡ made_of self.now event) };

    /// Puts the event that it makes of this one in its place, which spares a copy of each event that goes on as it is: see
    /// [`Stage::change`]. A mapping need not do so: at false the event is as it was, and `map` takes it.
    fn change(&self, alloc: Global, event: &mut Event) -> bool
        ensures made { result ≡ true → event.new ≡ made_of self.now event.old }
        ensures kept { result ≡ false → event.new ≡ event.old }
    {
        false
    }
}

/// The inbound handler that hands on what a mapping makes of each event.
#[derive(Debug, Drop)]
pub struct MapUp<M> {
    each: OneForOne<M>,
}

/// The outbound handler that hands on what a mapping makes of each event.
#[derive(Debug, Drop)]
pub struct MapDown<M> {
    each: OneForOne<M>,
}

impl<M: Mapping> MapUp<M> {
    /// The handler of this mapping. It takes no memory.
    pub fn new(mapping: M) -> Self
        ensures meaning { ⟦<MapUp<M> as Stage>⟧.meaning result ≡ mapping_up (M.made_of mapping) }
        ensures stands { ⟦<MapUp<M> as Stage>⟧.stands_after result [] }
        ensures unspent { ⟦<MapUp<M> as Stage>⟧.is_spent result ≡ false }
    {
        MapUp {
            each: OneForOne::new(mapping),
        }
    }
}

impl<M: Mapping> MapDown<M> {
    /// The handler of this mapping. It takes no memory.
    pub fn new(mapping: M) -> Self
        ensures meaning { ⟦<MapDown<M> as Stage>⟧.meaning result ≡ mapping_down (M.made_of mapping) }
        ensures stands { ⟦<MapDown<M> as Stage>⟧.stands_after result [] }
        ensures unspent { ⟦<MapDown<M> as Stage>⟧.is_spent result ≡ false }
    {
        MapDown {
            each: OneForOne::new(mapping),
        }
    }
}

impl<M: Mapping> Stage for MapUp<M> {
    ghost meaning = { λ s. mapping_up (M.made_of s.each.mapping) };

    // It keeps nothing of what it took, so it may stand after any events.
    ghost stands_after = { λ s xs. ⊤ };

    ghost is_spent = { λ s. s.each.is_spent };

    fn direction(&self) -> Direction {
        Direction::Inbound
    }

    fn step(&mut self, event: Event, up: &mut Vec<Event>, _down: &mut Vec<Event>) -> Stepped {
        self.each.pass(event, up)
    }

    fn change(&mut self, event: &mut Event, down: &mut Vec<Event>) -> Changed {
        if self.each.change(*down.allocator(), event) {
            Changed::Up
        } else {
            Changed::No
        }
    }

    ghost lawful = { λ s. mapping_up-lawful (M.made_of s.each.mapping) };
}

impl<M: Mapping> Stage for MapDown<M> {
    ghost meaning = { λ s. mapping_down (M.made_of s.each.mapping) };

    // It keeps nothing of what it took, so it may stand after any events.
    ghost stands_after = { λ s xs. ⊤ };

    ghost is_spent = { λ s. s.each.is_spent };

    fn direction(&self) -> Direction {
        Direction::Outbound
    }

    fn step(&mut self, event: Event, _up: &mut Vec<Event>, down: &mut Vec<Event>) -> Stepped {
        self.each.pass(event, down)
    }

    fn change(&mut self, event: &mut Event, down: &mut Vec<Event>) -> Changed {
        if self.each.change(*down.allocator(), event) {
            Changed::Down
        } else {
            Changed::No
        }
    }

    ghost lawful = { λ s. mapping_down-lawful (M.made_of s.each.mapping) };
}

/// A mapping at work, in either direction.
#[derive(Debug, Drop)]
struct OneForOne<M> {
    mapping: M,
    is_spent: bool,
}

impl<M: Mapping> OneForOne<M> {
    /// The mapping at work, not yet spent.
    fn new(mapping: M) -> Self
        ensures mapping { result.mapping ≡ mapping }
        ensures unspent { result.is_spent ≡ false }
    {
        OneForOne {
            mapping,
            is_spent: false,
        }
    }

    /// Adds what the mapping makes of the event. A fault adds nothing, and comes again from then on.
    fn pass(&mut self, event: Event, made: &mut Vec<Event>) -> Stepped
        ensures mapping { self.new.mapping ≡ self.old.mapping }
        ensures ok { OnOk result (made.new.items ≡ made.old.items ++ M.made_of self.old.mapping event ∷ []) }
        ensures open { IfOk result (λ turned. turned ≡ Turned.Open) }
        ensures err { OnErr result (made.new.items ≡ made.old.items) }
        ensures unspent { OnOk result (self.new.is_spent ≡ false) }
        ensures fault { OnErr result (self.new.is_spent ≡ true) }
        ensures spent { self.old.is_spent ≡ true → IsErr result }
    {
        if self.is_spent {
            return Err(StageFault::Memory);
        }
        match self.add(event, made) {
            Ok(()) => Ok(Turned::Open),
            Err(_) => {
                self.is_spent = true;
                Err(StageFault::Memory)
            }
        }
    }

    /// Puts what the mapping makes of the event in its place. At false, as once it is spent, the event is as it was.
    fn change(&self, alloc: Global, event: &mut Event) -> bool
        ensures made { result ≡ true → event.new ≡ M.made_of self.now.mapping event.old }
        ensures kept { result ≡ false → event.new ≡ event.old }
        ensures unspent { result ≡ true → self.now.is_spent ≡ false }
    {
        !self.is_spent && self.mapping.change(alloc, event)
    }

    /// Adds what the mapping makes of the event. An `Err` is out of memory, and adds nothing.
    fn add(&self, event: Event, made: &mut Vec<Event>) -> Result<(), AllocError>
        ensures ok { OnOk result (made.new.items ≡ made.old.items ++ M.made_of self.now.mapping event ∷ []) }
        ensures err { OnErr result (made.new.items ≡ made.old.items) }
    {
        let one = self.mapping.map(event)?;
        made.push(one)?;
        Ok(())
    }
}
