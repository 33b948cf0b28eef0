//! A part and its work list, run by hand.

ghost use Rattle.std.specs.Prelude.{◌≡◌, IfOk, OnOk};
ghost use Rattle.pl_head.specs.Transports.{MemoryTransportView};
ghost use Rattle.pl_part.specs.Parts.{ChannelPartView, has_entered};
ghost use Rattle.pl_part_tests.specs.declared.relays.Relay.{Relay};
ghost use Rattle.pl_part_tests.specs.SampleParts.{IsReady, IsSample};

use crate::relays::{Faults, Relay, sample_run};
use pl_context::{Outputs, Took};
use pl_event::{Cause, Event, Kind, Lane, Outcome};
use pl_flow::HeadMove;
use pl_head::{MemoryTransport, OutStep, ReadStep};
use pl_part::ChannelPart;
use std::alloc::{AllocError, Global};
use std::process::Abort;
use std::test::Fail;

/// A call of a part.
#[derive(Clone, Copy, Debug)]
pub(crate) enum Call {
    /// The head's next read step.
    Read,
    /// A write of the head.
    Write,
    /// A move of the head, which is one of the two.
    Move(HeadMove),
    Abort,
    /// What the writer of a lane of a hop has put is refused.
    Refuse(Kind, u16),
    HasReadStep,
    IsWritten,
    HasEnded,
}

/// What a call answers.
#[derive(Clone, Copy, Debug, PartialEq, Eq)]
pub(crate) enum Answer {
    Read(ReadStep),
    Wrote(OutStep),
    Moved(bool),
    Nothing,
    Is(bool),
}

/// What the two ends of a part have kept.
#[derive(Clone, Copy, Debug)]
pub(crate) struct Ends {
    /// How many of `RECORD`'s events the tail has recorded, and no others.
    pub(crate) recorded: usize,
    pub(crate) flags: &'static [bool],
    pub(crate) bytes: &'static [u8],
    pub(crate) outcomes: &'static [Option<Outcome>],
    /// What the tail has failed for.
    pub(crate) tail_failed: Option<Cause>,
    /// What the head has failed for.
    pub(crate) head_failed: Option<Cause>,
}

impl Ends {
    /// The same, where the tail and the head have failed for these.
    pub(crate) fn failed(self, tail: Cause, head: Cause) -> Ends {
        Ends {
            tail_failed: Some(tail),
            head_failed: Some(head),
            ..self
        }
    }
}

/// What the tail records of the recorded burst.
const RECORD: [Event; 2] = [Event::Active, Event::ReadComplete];

/// A call, what it is to answer, and what the nodes are to answer then to items of their data lanes and to flags, each
/// with its hop.
pub(crate) type Expected = (Call, Answer, &'static [(u16, Took)], &'static [(u16, Took)]);

/// What the nodes of a part have answered, and the lanes of what came for none of them.
#[derive(Drop)]
struct Seen {
    data: Vec<(u16, Took)>,
    flags: Vec<(u16, Took)>,
    astray: Vec<Lane>,
}

impl Seen {
    fn new(alloc: Global) -> Self {
        Seen {
            data: Vec::new(alloc),
            flags: Vec::new(alloc),
            astray: Vec::new(alloc),
        }
    }

    fn push(&mut self, lane: Lane, took: Took) -> Result<(), AllocError> {
        let answers = match lane.kind {
            Kind::Data => &mut self.data,
            Kind::Flags => &mut self.flags,
        };
        answers.push((lane.hop, took))?;
        Ok(())
    }
}

/// Makes these calls, one after another. After each the part runs until nothing waits.
fn play(
    rt: &(impl Abort + AllocGlobal),
    part: &mut ChannelPart<Relay, MemoryTransport>,
    work: &mut Outputs,
    rows: &[Expected],
) -> Result<(), AllocError>
    requires ready { IsReady part.old work.old }
    ensures ready { OnOk result (IsReady part.new work.new) }
{
    for row in rows {
        play_one(rt, part, work, row)?;
    }
    Ok(())
}

/// The part of the tests with these faults makes these lists of calls, one after another, and its ends have kept this.
pub(crate) fn assert_plays(
    rt: &(impl Abort + AllocGlobal),
    faults: Faults,
    lists: &[&[Expected]],
    ends: &Ends,
) -> Result<(), Fail> {
    let (mut part, mut work) = sample_run(rt.alloc(), faults)?;
    for rows in lists {
        play(rt, &mut part, &mut work, rows)?;
    }
    assert_tail(rt, &part, ends);
    assert_head(rt, &part, ends);
    Ok(())
}

fn assert_tail(rt: &impl Abort, part: &ChannelPart<Relay, MemoryTransport>, ends: &Ends) {
    let Some(tail) = part.tail() else {
        panic!(rt; "no tail")
    };
    assert!(rt; Some(tail.record()) == RECORD.get(..ends.recorded));
    assert!(rt; tail.flags() == ends.flags);
    assert!(rt; tail.cause() == ends.tail_failed);
}

fn assert_head(rt: &impl Abort, part: &ChannelPart<Relay, MemoryTransport>, ends: &Ends) {
    let Some(head) = part.head() else {
        panic!(rt; "no head")
    };
    assert!(rt; head.bytes() == ends.bytes);
    assert!(rt; head.outcomes() == ends.outcomes);
    assert!(rt; head.cause() == ends.head_failed);
}

fn play_one(
    rt: &(impl Abort + AllocGlobal),
    part: &mut ChannelPart<Relay, MemoryTransport>,
    work: &mut Outputs,
    row: &Expected,
) -> Result<(), AllocError>
    requires ready { IsReady part.old work.old }
    ensures ready { OnOk result (IsReady part.new work.new) }
{
    let answer = apply(part, work, row.0);
    assert!(rt; answer == row.1);
    let seen = run(rt.alloc(), part, work)?;
    assert!(rt; seen.data.as_slice() == row.2);
    assert!(rt; seen.flags.as_slice() == row.3);
    assert!(rt; seen.astray.is_empty());
    Ok(())
}

/// Makes a call, and answers what it answers.
fn apply(part: &mut ChannelPart<Relay, MemoryTransport>, work: &mut Outputs, call: Call) -> Answer
    requires ready { IsReady part.old work.old }
    ensures ready { IsReady part.new work.new }
{
    match call {
        Call::Read => Answer::Read(part.next_read(work)),
        Call::Write => Answer::Wrote(part.write_once(work)),
        Call::Move(by) => Answer::Moved(part.move_head(by, work)),
        Call::Abort => {
            part.abort(work);
            Answer::Nothing
        }
        Call::Refuse(kind, hop) => {
            let lane = Lane {
                channel: 7,
                kind,
                hop,
            };
            part.refuse(lane, work);
            Answer::Nothing
        }
        Call::HasReadStep => Answer::Is(part.has_read_step()),
        Call::IsWritten => Answer::Is(part.is_written()),
        Call::HasEnded => Answer::Is(part.has_ended()),
    }
}

/// The part runs until nothing waits.
fn run(
    alloc: Global,
    part: &mut ChannelPart<Relay, MemoryTransport>,
    work: &mut Outputs,
) -> Result<Seen, AllocError>
    requires ready { IsReady part.old work.old }
    ensures ready { OnOk result (IsReady part.new work.new) }
{
    let mut seen = Seen::new(alloc);
    for _ in 0..100 {
        if !goes_on(part, work, &mut seen)? {
            break;
        }
    }
    Ok(seen)
}

/// The node that it enters takes the front of the work list. It answers whether there was one.
fn goes_on(
    part: &mut ChannelPart<Relay, MemoryTransport>,
    work: &mut Outputs,
    seen: &mut Seen,
) -> Result<bool, AllocError>
    requires ready { IsReady part.old work.old }
    ensures ready { OnOk result (IsReady part.new work.new) }
{
    let Some(envelope) = work.next() else {
        return Ok(false);
    };
    let lane = envelope.lane;
    if enters(lane) {
        let took = part.take(envelope, work);
        seen.push(lane, took)?;
    } else {
        drop(envelope);
        seen.astray.push(lane)?;
    }
    Ok(true)
}

/// Whether a lane enters one of the part's nodes.
fn enters(lane: Lane) -> bool
    ensures { (p : ChannelPartView Relay MemoryTransportView) → IsSample p → result ≡ has_entered p lane }
{
    match lane.kind {
        Kind::Data => lane.channel == 7 && lane.hop < 5,
        Kind::Flags => lane.channel == 7 && lane.hop < 4,
    }
}
