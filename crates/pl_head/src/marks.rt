//! The bytes that wait against two marks, and the flags that go up.

ghost use Rattle.std.specs.Prelude.{◌≡◌, ◌+◌, ◌<◌, ◌≤◌, ◌^◌, ◌∷◌, ◌++◌, List, [], true, false};
ghost use Rattle.pl_event.specs.declared.envelopes.Lane.{Lane};
ghost use Rattle.pl_event.specs.Hops.{flags_lane};
ghost use Rattle.pl_context.specs.Stops.{HasPlaces, AreAmong};
ghost use Rattle.pl_head.specs.Marks.{Change, Added, Removed};

use pl_context::{Outputs, Port};
use pl_event::Kind;

/// The bytes that wait against two marks, and the lane on which flags go up.
#[derive(Debug, Drop)]
pub(crate) struct Marks {
    pub(crate) low: u32,
    pub(crate) high: u32,
    pub(crate) pending: u128,
    pub(crate) is_unwritable: bool,
    pub(crate) flags: Port,
    ghost ordered: { low ≤ high },
    ghost not_below: { is_unwritable ≡ true → low ≤ pending },
    ghost not_above: { is_unwritable ≡ false → pending ≤ high },
}

impl Marks {
    ghost use Rattle.pl_head.specs.MarksStand.{MarksStand, SendsFlags, flag_bound};

    /// No byte waits, and no flag was sent.
    pub(crate) fn new(channel: u16, low: u32, high: u32) -> Self
        requires { low ≤ high }
        ensures stands { MarksStand result [] }
        ensures low { result.low ≡ low }
        ensures high { result.high ≡ high }
        ensures pending { result.pending ≡ 0 }
        ensures port { result.flags ≡ record { lane = flags_lane channel 0; made = 0; is_open = true } }
        ensures count { flag_bound result ≡ 0 }
    {
        Marks {
            low,
            high,
            pending: 0,
            is_unwritable: false,
            flags: Port::new(channel, Kind::Flags, 0, true),
        }
    }

    /// Adds a size, and sends the flag of this change, if it has one: pending is above high for the first time.
    pub(crate) fn add(&mut self, size: usize, outputs: &mut Outputs)
        requires fits { self.old.pending + size < 2 ^ 128 }
        requires room { flag_bound self.old + 1 < 2 ^ 64 }
        requires place { self.old.flags.is_open ≡ true → HasPlaces outputs.old.stopped (self.old.flags.lane ∷ []) }
        ensures stands { (cs : List Change) → MarksStand self.old cs → MarksStand self.new (cs ++ Added size ∷ []) }
        ensures flags { (cs : List Change) → MarksStand self.old cs →
            SendsFlags self.old.low self.old.high cs (Added size ∷ []) self.old.flags outputs.old self.new.flags outputs.new }
        ensures pending { self.new.pending ≡ self.old.pending + size }
        ensures low { self.new.low ≡ self.old.low }
        ensures high { self.new.high ≡ self.old.high }
        ensures lane { self.new.flags.lane ≡ self.old.flags.lane }
        ensures count { flag_bound self.new ≤ flag_bound self.old + 2 }
    {
        self.pending += size as u128;
        if self.is_unwritable {
            return;
        }
        if self.pending <= self.high as u128 {
            return;
        }
        self.is_unwritable = true;
        self.flags.pass(false, outputs);
    }

    /// Removes a size, and sends the flag of this change, if it has one: pending is below low for the first time after
    /// it was above high.
    pub(crate) fn remove(&mut self, size: u128, outputs: &mut Outputs)
        requires fits { size ≤ self.old.pending }
        requires room { flag_bound self.old + 1 < 2 ^ 64 }
        requires place { self.old.flags.is_open ≡ true → HasPlaces outputs.old.stopped (self.old.flags.lane ∷ []) }
        ensures stands { (cs : List Change) → MarksStand self.old cs → MarksStand self.new (cs ++ Removed size ∷ []) }
        ensures flags { (cs : List Change) → MarksStand self.old cs →
            SendsFlags self.old.low self.old.high cs (Removed size ∷ []) self.old.flags outputs.old self.new.flags outputs.new }
        ensures pending { self.new.pending + size ≡ self.old.pending }
        ensures low { self.new.low ≡ self.old.low }
        ensures high { self.new.high ≡ self.old.high }
        ensures lane { self.new.flags.lane ≡ self.old.flags.lane }
        ensures count { flag_bound self.new ≤ flag_bound self.old }
        ensures places { (lanes : List Lane) → HasPlaces outputs.old.stopped lanes → AreAmong (self.old.flags.lane ∷ []) lanes → HasPlaces outputs.new.stopped lanes }
    {
        self.pending -= size;
        if !self.is_unwritable {
            return;
        }
        if self.pending >= self.low as u128 {
            return;
        }
        self.is_unwritable = false;
        self.flags.pass(true, outputs);
    }
}
