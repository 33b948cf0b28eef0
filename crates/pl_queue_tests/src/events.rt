//! Lanes that carry Active, ReadComplete and their end.

ghost use Rattle.std.specs.Prelude.{◌≡◌};
ghost use Rattle.pl_event.specs.Hops.{data_lane as the_data_lane};
ghost use Rattle.pl_queue_tests.specs.Relays.{event_at as the_event_at, event as the_event};

use pl_event::{Envelope, Event, Item, Kind, Lane};

/// The data lane that enters hop 0 of a channel.
pub fn data_lane(channel: u16) -> Lane
    ensures { result ≡ the_data_lane channel 0 }
{
    Lane {
        channel,
        kind: Kind::Data,
        hop: 0,
    }
}

/// The event with this number.
pub fn event_at(number: u64) -> Event
    ensures { result ≡ the_event_at number }
{
    if number == 0 {
        Event::Active
    } else {
        Event::ReadComplete
    }
}

/// The envelope with this number, where it is not the last.
pub fn event(lane: Lane, number: u64) -> Envelope
    ensures { result ≡ the_event lane number }
{
    Envelope {
        lane,
        number,
        item: Item::Event(event_at(number)),
    }
}
