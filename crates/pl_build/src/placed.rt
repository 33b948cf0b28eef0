//! A pipeline that was built: its two chains, and the executor of each hop.

ghost use Rattle.std.specs.Prelude.{◌≡◌, ◌+◌, ◌<◌, ◌≤◌, ◌↔◌, length, slice_get, IsSome};

use crate::limits::{MAX_HANDLERS, MAX_MARK};
use pl_event::Stage;
use std::marker::Model;

/// A pipeline that was built and placed.
///
/// With k inbound handlers, the turn among them, and m outbound handlers before the turn, hop i < k enters inbound
/// handler i, hop k the tail, hop k + 1 + j the j-th outbound handler counted from the turn, and hop k + 1 + m the head.
#[derive(Drop)]
pub struct Placed<S: Stage> {
    pub(crate) inbound: Vec<S>,
    /// The nearest to the turn first.
    pub(crate) outbound: Vec<S>,
    /// The index of the turn in `inbound`.
    pub(crate) turn: usize,
    /// By hop.
    pub(crate) executors: Vec<u16>,
    /// In bytes.
    pub(crate) low: u32,
    pub(crate) high: u32,
}

impl<S: Stage> Model for Placed<S> {
    ghost use Rattle.std.specs.Prelude.{◌≡◌};
    ghost use Rattle.pl_build.specs.Pipelines.{PlacedView, hop_of_turn};
    ghost use Rattle.pl_build.specs.Paths.{IsPath};

    ghost Value = { PlacedView S };

    ghost view = { λ p. record { inbound = p.inbound.items; outbound = p.outbound.items; executors = p.executors.items; low = p.low; high = p.high } };

    ghost invariant = { λ p. IsPath S.meaning S.stands_after (record { inbound = p.inbound.items; outbound = p.outbound.items; executors = p.executors.items; low = p.low; high = p.high })
        × (p.turn ≡ hop_of_turn S.meaning p.inbound.items) };
}

impl<S: Stage> Placed<S> {
    ghost use Rattle.pl_build.specs.Paths.{IsPath, AreChains};
    ghost use Rattle.pl_build.specs.Pipelines.{hop_of_turn};

    /// The executor of the context that a hop enters, or None past the head. It takes no memory.
    pub fn executor_of(&self, hop: u16) -> Option<u16>
        ensures executor { result ≡ slice_get self.now.executors hop }
        ensures last { IsSome result ↔ (hop < length self.now.inbound + length self.now.outbound + 2) }
    {
        self.executors.as_slice().get(hop as usize).copied()
    }

    /// How many inbound handlers it has, the turn among them.
    pub fn inbound(&self) -> u16
        ensures count { result ≡ length self.now.inbound }
        ensures within { result + length self.now.outbound ≤ MAX_HANDLERS }
        ensures path { IsPath S.meaning S.stands_after self.now }
    {
        self.inbound.len() as u16
    }

    /// How many outbound handlers it has, all of them before the turn.
    pub fn outbound(&self) -> u16
        ensures count { result ≡ length self.now.outbound }
        ensures within { length self.now.inbound + result ≤ MAX_HANDLERS }
    {
        self.outbound.len() as u16
    }

    /// The hop of the turn: its index among the inbound handlers.
    pub fn turn(&self) -> usize
        ensures hop { result ≡ hop_of_turn S.meaning self.now.inbound }
        ensures within { result < length self.now.inbound }
    {
        self.turn
    }

    /// The low mark, in bytes: with fewer pending the channel becomes writable again.
    pub fn low(&self) -> u32
        ensures low { result ≡ self.now.low }
        ensures order { result ≤ self.now.high }
    {
        self.low
    }

    /// The high mark, in bytes: with more pending the channel becomes not writable.
    pub fn high(&self) -> u32
        ensures high { result ≡ self.now.high }
        ensures within { result ≤ MAX_MARK }
    {
        self.high
    }

    /// The inbound handlers from first to last, and the outbound handlers from the nearest to the turn to the first.
    /// It takes no memory.
    pub fn into_chains(self) -> (Vec<S>, Vec<S>)
        ensures { AreChains S.meaning S.stands_after self result.0.items result.1.items }
    {
        let (inbound, outbound, _) = self.into_parts();
        (inbound, outbound)
    }

    /// The two chains as `into_chains` gives them, and the executor of each hop. It takes no memory.
    pub fn into_parts(self) -> (Vec<S>, Vec<S>, Vec<u16>)
        ensures chains { AreChains S.meaning S.stands_after self result.0.items result.1.items }
        ensures executors { result.2.items ≡ self.executors }
    {
        let Placed {
            inbound,
            outbound,
            executors,
            ..
        } = self;
        (inbound, outbound, executors)
    }
}
