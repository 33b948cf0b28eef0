//! Flags, which fit a lane of theirs in every world.

ghost use Rattle.std.specs.Prelude.{◌≡◌};
ghost use Rattle.pl_event.specs.Hops.{flags_lane};
ghost use Rattle.pl_queue_tests.specs.Flags.{flag_at};

use pl_event::{Envelope, Item, Kind, Lane};

/// The flags lane of a hop of a channel.
pub fn lane(channel: u16, hop: u16) -> Lane
    ensures { result ≡ flags_lane channel hop }
{
    Lane {
        channel,
        kind: Kind::Flags,
        hop,
    }
}

/// The flag with this number.
pub fn flag(lane: Lane, number: u64) -> Envelope
    ensures { result ≡ flag_at lane number }
{
    Envelope {
        lane,
        number,
        item: Item::Flag(number % 2 == 1),
    }
}
