//! Stages that hand each event on, and a part with all nodes of their channel.

ghost use Rattle.std.specs.Prelude.{◌≡◌, [], ◌∷◌, ◌++◌, ◌<◌, IfOk, OnOk, false, vec_len, vec_capacity};
ghost use Rattle.pl_part_tests.specs.declared.relays.Relay.{Relay};
ghost use Rattle.pl_context.specs.OutputsViews.{OutputsView};
ghost use Rattle.pl_context.specs.Stops.{no_stops};
ghost use Rattle.pl_part_tests.specs.SampleParts.{IsSample, IsReady, sample_bursts};
ghost use Rattle.pl_part_tests.specs.Relays.{relaying, relaying-lawful, passed_up, passed_down};

use pl_context::Outputs;
use pl_event::{
    ByteString, Direction, Element, Event, Sequence, Stage, StageFault, Stepped, Turned,
};
use pl_head::{Head, MemoryTransport, ReadPlan};
use pl_part::ChannelPart;
use std::alloc::{AllocError, Global};

/// Hands each event on; the turn writes back what is read, and hands on all else and writes a flush for it. After a given
/// number of steps it meets a fault.
#[derive(Drop)]
pub(crate) struct Relay {
    direction: Direction,
    steps: u32,
    is_spent: bool,
}

impl Stage for Relay {
    ghost meaning = { λ s. relaying s.direction };

    ghost stands_after = { λ _ _. Unit {0} };

    ghost is_spent = { λ s. s.is_spent };

    fn direction(&self) -> Direction {
        self.direction
    }

    fn step(&mut self, event: Event, up: &mut Vec<Event>, down: &mut Vec<Event>) -> Stepped {
        if self.is_spent || self.steps == 0 || up.reserve(1).is_err() || down.reserve(1).is_err() {
            drop(event);
            self.is_spent = true;
            return Err(StageFault::Memory);
        }
        pass(self.direction, event, up, down);
        self.steps -= 1;
        Ok(Turned::Open)
    }

    ghost lawful = { λ s. relaying-lawful s.direction };
}

fn new_relay(direction: Direction, steps: u32) -> Relay
    ensures { result.direction ≡ direction }
{
    Relay {
        direction,
        steps,
        is_spent: false,
    }
}

fn pass(direction: Direction, event: Event, up: &mut Vec<Event>, down: &mut Vec<Event>)
    requires room_up { vec_len up.old < vec_capacity up.old }
    requires room_down { vec_len down.old < vec_capacity down.old }
    ensures up { up.new.items ≡ up.old.items ++ passed_up direction event }
    ensures down { down.new.items ≡ down.old.items ++ passed_down direction event }
{
    match direction {
        Direction::Inbound => up.push_reserved(event),
        Direction::Outbound => down.push_reserved(event),
        Direction::Turn => match event {
            Event::Read(message) => down.push_reserved(Event::Write(message)),
            other => {
                down.push_reserved(Event::Flush);
                up.push_reserved(other);
            }
        },
    }
}

/// What fails in a part: its first handler after so many steps, its transport at a call, and all of it by an abort after
/// so many bursts.
#[derive(Clone, Copy, Debug)]
pub(crate) struct Faults {
    pub(crate) steps: u32,
    pub(crate) fail_at: Option<u32>,
    pub(crate) abort_after: Option<u32>,
}

/// Nothing fails.
pub(crate) const NO_FAULTS: Faults = Faults {
    steps: 9,
    fail_at: None,
    abort_after: None,
};

/// One burst of one chunk, with an abort after it, before it, or none.
fn sample_plan(alloc: Global, abort_after: Option<u32>) -> Result<ReadPlan, AllocError>
    ensures { IfOk result (λ plan. plan.bursts ≡ sample_bursts) }
{
    let text = ByteString::from_slice(alloc, b"ab")?;
    let elements = vec![in alloc; Element::Chunk(text)]?;
    let bursts = vec![in alloc; Sequence::from_vec(elements)]?;
    Ok(ReadPlan {
        bursts: Sequence::from_vec(bursts),
        abort_after,
    })
}

/// All nodes of channel 7: an inbound handler, the turn, the tail, an outbound handler and the head, whose transport
/// accepts a byte a call. Two bytes that wait are above its high mark.
pub(crate) fn sample_part(
    alloc: Global,
    faults: Faults,
) -> Result<ChannelPart<Relay, MemoryTransport>, AllocError>
    ensures sample { IfOk result (λ part. IsSample part) }
    ensures ready { IfOk result (λ part. (work : OutputsView) → work.items ≡ [] → work.stopped ≡ no_stops 5 → IsReady part work) }
{
    let inbound = vec![in alloc;
        new_relay(Direction::Inbound, faults.steps),
        new_relay(Direction::Turn, 9),
    ]?;
    let outbound = vec![in alloc; new_relay(Direction::Outbound, 9)]?;
    let executors = vec![in alloc; 2, 0, 2, 1, 2]?;
    let plan = sample_plan(alloc, faults.abort_after)?;
    let transport = MemoryTransport::new(alloc, 1, faults.fail_at);
    let head = Head::new(alloc, 7, 4, plan, transport, 1, 1);
    ChannelPart::whole(alloc, 7, executors, inbound, outbound, 1, head)
}

/// The same, with its work list.
pub(crate) fn sample_run(
    alloc: Global,
    faults: Faults,
) -> Result<(ChannelPart<Relay, MemoryTransport>, Outputs), AllocError>
    ensures { IfOk result (λ run. IsReady run.0 run.1) }
{
    let part = sample_part(alloc, faults)?;
    let work = Outputs::new(alloc, 5)?;
    Ok((part, work))
}
