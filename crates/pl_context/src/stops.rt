//! The lanes that have stopped on a list.

ghost use Rattle.std.specs.Prelude.{◌≡◌, ◌+◌, ◌<◌, ◌≤◌, ◌==◌, ◌&&◌, ◌∷◌, ◌++◌, [], length, not, IfOk, true, false, vec_capacity};
ghost use Rattle.std.specs.List.{list_any};
ghost use Rattle.pl_event.specs.declared.envelopes.Kind.TheVariants as kind;
ghost use Rattle.pl_event.specs.Hops.{same_hop};
ghost use Rattle.pl_context.specs.Stops.{has_stopped, any_stopped, with_stop, HasPlaces, no_stops};

use pl_event::{Kind, Lane};
use std::alloc::{AllocError, Global};
use std::marker::Model;

/// The lanes that have stopped on a list of envelopes, and how many places are reserved for failures.
///
/// Room for them is taken at the start, so noting one takes no memory. Nothing is noted until memory runs out, so
/// asking for a lane costs nothing until then.
#[derive(Debug, Drop)]
pub(crate) struct Stops {
    lanes: Vec<Lane>,
    flag_lanes: Vec<Lane>,
    places: u16,
}

impl Model for Stops {
    ghost use Rattle.std.specs.Prelude.{vec_capacity};
    ghost use Rattle.pl_context.specs.Stops.{StopsView, IsStops};

    ghost Value = { StopsView };

    ghost view = { λ s. record { lanes = s.lanes.items; flag_lanes = s.flag_lanes.items; places = s.places } };

    ghost invariant = { λ s. IsStops s.lanes.items s.flag_lanes.items s.places (vec_capacity s.lanes) (vec_capacity s.flag_lanes) };
}

impl Stops {
    /// No lane has stopped.
    pub(crate) fn new(alloc: Global, places: u16) -> Result<Self, AllocError>
        ensures { IfOk result (λ s. s ≡ no_stops places) }
    {
        Ok(Stops {
            lanes: Vec::with_capacity(alloc, places as usize)?,
            flag_lanes: Vec::with_capacity(alloc, places as usize)?,
            places,
        })
    }

    /// Whether a lane has stopped.
    pub(crate) fn has(&self, lane: Lane) -> bool
        ensures { result ≡ has_stopped self.now lane }
    {
        match lane.kind {
            Kind::Data => holds(self.lanes.as_slice(), lane),
            Kind::Flags => holds(self.flag_lanes.as_slice(), lane),
        }
    }

    /// Whether any lane has stopped.
    pub(crate) fn has_any(&self) -> bool
        ensures { result ≡ any_stopped self.now }
    {
        !(self.lanes.is_empty() && self.flag_lanes.is_empty())
    }

    /// How many reserved places are left.
    pub(crate) fn left(&self) -> usize
        ensures left { result + length self.now.lanes ≡ self.now.places }
        ensures within { result ≤ u16.MAX }
    {
        self.places as usize - self.lanes.len()
    }

    /// Notes that a lane has stopped.
    pub(crate) fn stop(&mut self, lane: Lane)
        requires place { HasPlaces self.old (lane ∷ []) }
        requires goes_on { has_stopped self.old lane ≡ false }
        ensures stopped { self.new ≡ with_stop self.old lane }
        ensures place { lane.kind ≡ kind.Data → length self.old.lanes < self.old.places }
        ensures lanes { lane.kind ≡ kind.Data → length self.new.lanes ≡ length self.old.lanes + 1 }
        ensures flag_lanes { lane.kind ≡ kind.Flags → length self.new.lanes ≡ length self.old.lanes }
        ensures places { self.new.places ≡ self.old.places }
    {
        match lane.kind {
            Kind::Data => self.lanes.push_reserved(lane),
            Kind::Flags => self.flag_lanes.push_reserved(lane),
        }
    }
}

/// Whether a lane of the same hop is among these.
fn holds(lanes: &[Lane], lane: Lane) -> bool
    ensures { result ≡ list_any (same_hop lane) lanes.now }
{
    lanes.iter().any(|other| lane.channel == other.channel && lane.hop == other.hop)
}
