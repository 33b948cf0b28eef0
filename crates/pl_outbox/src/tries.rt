//! The ways whose queue a `hand` found full.

ghost use Rattle.std.specs.Prelude.{◌≡◌, ℕ, [], ◌<◌, ◌==◌, ◌||◌, IfOk};
ghost use Rattle.pl_outbox.specs.Tries.{is_tried};

use std::alloc::{AllocError, Global};
use std::marker::Model;

/// The ways whose queue a `hand` found full. Room for all of them is taken at the start, so noting one takes no memory.
#[derive(Drop)]
pub(crate) struct Tries {
    ways: Vec<usize>,
}

impl Model for Tries {
    ghost use Rattle.std.specs.Prelude.{vec_capacity};
    ghost use Rattle.pl_outbox.specs.Tries.{TriesView, IsTries};

    ghost Value = { TriesView };

    ghost view = { λ t. record { tried = t.ways.items; count = vec_capacity t.ways } };

    ghost invariant = { λ t. IsTries (record { tried = t.ways.items; count = vec_capacity t.ways }) };
}

impl Tries {
    /// None of so many ways was tried.
    pub(crate) fn new(alloc: Global, count: usize) -> Result<Self, AllocError>
        ensures { IfOk result (λ new. new ≡ record { tried = []; count = count }) }
    {
        Ok(Tries {
            ways: Vec::with_capacity(alloc, count)?,
        })
    }

    /// Whether a way was tried, and its queue found full.
    pub(crate) fn has(&self, way: usize) -> bool
        ensures { result ≡ is_tried self.now.tried way }
    {
        self.ways.iter().any(|&other| way == other)
    }

    /// Notes that a way was tried.
    #[tactic(auto, using(crate::proofs::TryLemmas::tried_more, crate::proofs::TryLemmas::tried_again, crate::proofs::TryLemmas::tries_room))]
    pub(crate) fn add(&mut self, way: usize)
        requires there { way < self.old.count }
        ensures tried { (y : ℕ) → is_tried self.new.tried y ≡ ((y == way) || is_tried self.old.tried y) }
        ensures count { self.new.count ≡ self.old.count }
    {
        if !self.has(way) {
            self.ways.push_reserved(way);
        }
    }

    /// None was tried.
    pub(crate) fn clear(&mut self)
        ensures { self.new ≡ record self.old { tried = [] } }
    {
        self.ways.clear();
    }

    /// Those that were tried, in this order.
    pub(crate) fn as_slice(&self) -> &[usize] {
        self.ways.as_slice()
    }
}
