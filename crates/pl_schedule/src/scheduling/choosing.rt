//! Which move is tried next.

use pl_world::Move;
use rand_core::Rng;
use rand_pcg::Pcg32;
use std::alloc::{AllocError, Global};

/// Which of the enabled moves comes next.
#[derive(Clone, Copy, Debug, PartialEq, Eq)]
pub enum Order {
    /// All in turn: reads, hand-overs, tasks, writes.
    Fair,
    /// The next after a place that a generator of this seed draws.
    Seed(u64),
}

/// Says where to look for the next enabled move.
#[derive(Drop)]
pub(crate) enum Chooser {
    /// Just after the last.
    InTurn,
    /// Where this generator says.
    Drawn(Pcg32),
}

impl Chooser {
    /// For an order.
    pub(crate) fn new(order: Order) -> Chooser {
        match order {
            Order::Fair => Chooser::InTurn,
            Order::Seed(seed) => Chooser::Drawn(Pcg32::new(seed, 0)),
        }
    }

    /// Where to look first, among so many.
    pub(crate) fn start(&mut self, count: usize) -> usize {
        match self {
            Chooser::InTurn => 0,
            Chooser::Drawn(generator) => drawn(generator, count),
        }
    }

    /// Where to look next after the move at a place was made.
    pub(crate) fn next(&mut self, at: usize, count: usize) -> usize {
        match self {
            Chooser::InTurn => after(at, count),
            Chooser::Drawn(generator) => drawn(generator, count),
        }
    }
}

/// A place among so many.
fn drawn(generator: &mut Pcg32, count: usize) -> usize {
    if count == 0 {
        return 0;
    }
    generator.next_u32() as usize % count
}

/// The place after one among so many, round and round.
pub(crate) fn after(at: usize, count: usize) -> usize {
    if at < count && count - at > 1 {
        at + 1
    } else {
        0
    }
}

/// All moves of a session, each once.
pub(crate) fn all_moves(
    alloc: Global,
    channels: usize,
    executors: u16,
) -> Result<Vec<Move>, AllocError> {
    let channels = u16::try_from(channels).unwrap_or(u16::MAX);
    let mut moves = Vec::new(alloc);
    for channel in 0..channels {
        moves.push(Move::Read(channel))?;
    }
    for executor in 0..executors {
        moves.push(Move::Hand(executor))?;
    }
    for executor in 0..executors {
        moves.push(Move::Task(executor))?;
    }
    for channel in 0..channels {
        moves.push(Move::Out(channel))?;
    }
    Ok(moves)
}
