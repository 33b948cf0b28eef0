//! A recorded input as one list of events.

ghost use Rattle.std.specs.Prelude.{◌≡◌, ◌++◌, IfOk, OnOk};
ghost use Rattle.pl_event.specs.Inputs.{burst_events, recorded_input};

use pl_event::{Element, Event, Sequence};
use std::alloc::{AllocError, Global};

/// All events that the bursts of a channel bring, from its becoming active on. The chunks are moved.
pub(crate) fn recorded_events(
    alloc: Global,
    bursts: Sequence<Sequence<Element>>,
) -> Result<Vec<Event>, AllocError>
    ensures { IfOk result (λ events. events.items ≡ recorded_input bursts) }
{
    let mut events = Vec::new(alloc);
    events.push(Event::Active)?;
    for elements in bursts.into_vec() {
        add_burst(&mut events, elements)?;
    }
    Ok(events)
}

/// Adds the event of each element, and then the completion.
fn add_burst(events: &mut Vec<Event>, elements: Sequence<Element>) -> Result<(), AllocError>
    ensures { OnOk result (events.new.items ≡ events.old.items ++ burst_events elements) }
{
    for element in elements.into_vec() {
        events.push(element.into_event())?;
    }
    events.push(Event::ReadComplete)?;
    Ok(())
}
