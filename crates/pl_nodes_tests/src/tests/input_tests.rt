//! What a head reads, step by step: the events of each burst, with the numbers of their lane.

ghost use Rattle.std.specs.Prelude.{◌≡◌, [], ◌∷◌, IfOk};
ghost use Rattle.pl_event.specs.declared.envelopes.Lane.{Lane};
ghost use Rattle.pl_context.specs.Stops.{HasPlaces};

use crate::tests::context_tests::{Put, Sample, assert_brings};
use crate::tests::head_tests::{Call, apply, text};
use pl_context::Outputs;
use pl_event::{Element, Sequence};
use pl_head::{Head, MemoryTransport, ReadPlan, ReadStep};
use std::alloc::{AllocError, Global};
use std::process::Abort;
use std::test::Fail;

/// An empty list with a place for one lane, whichever it is.
pub(crate) fn outputs_of_one(alloc: Global) -> Result<Outputs, AllocError>
    ensures { IfOk result (λ outputs. (lane : Lane) → HasPlaces outputs.stopped (lane ∷ [])) }
{
    Outputs::new(alloc, 1)
}

/// Flushes two bytes, which wait then: the channel is not writable, and a burst is held.
fn block(
    rt: &(impl Abort + AllocGlobal),
    head: &mut Head<MemoryTransport>,
) -> Result<(), AllocError> {
    apply(rt, head, Call::WriteLong(2))?;
    apply(rt, head, Call::Flush)?;
    Ok(())
}

/// A head with two bursts to read: one of two chunks with a user event between them, and one of no element.
fn two_bursts(alloc: Global) -> Result<Head<MemoryTransport>, AllocError> {
    let first = text(alloc, b"ab")?;
    let second = text(alloc, b"c")?;
    let elements = vec![in alloc;
        Element::Chunk(first),
        Element::User(17),
        Element::Chunk(second),
    ]?;
    let bursts = vec![in alloc; Sequence::from_vec(elements), Sequence::new(alloc)]?;
    let transport = MemoryTransport::new(alloc, 2, None);
    let plan = ReadPlan {
        bursts: Sequence::from_vec(bursts),
        abort_after: None,
    };
    Ok(Head::new(alloc, 7, 3, plan, transport, 1, 1))
}

/// The next read step answers so, and puts out these.
fn assert_step(
    rt: &(impl Abort + AllocGlobal),
    head: &mut Head<MemoryTransport>,
    answer: ReadStep,
    want: &[Put],
) -> Result<(), AllocError> {
    let mut outputs = outputs_of_one(rt.alloc())?;
    assert!(rt; head.next_read(&mut outputs) == answer);
    assert_brings(rt, &mut outputs, want);
    Ok(())
}

const ACTIVE: [Put; 1] = [(0, 0, Sample::Active)];

const FIRST: [Put; 4] = [
    (0, 1, Sample::Read(b"ab")),
    (0, 2, Sample::User(17)),
    (0, 3, Sample::Read(b"c")),
    (0, 4, Sample::ReadComplete),
];

const SECOND: [Put; 1] = [(0, 5, Sample::ReadComplete)];

const END: [Put; 1] = [(0, 6, Sample::End)];

/// A burst comes once what was flushed before it is written, and not before.
fn assert_held(
    rt: &(impl Abort + AllocGlobal),
    head: &mut Head<MemoryTransport>,
    burst: &[Put],
) -> Result<(), AllocError> {
    assert_step(rt, head, ReadStep::Held, &[])?;
    apply(rt, head, Call::Out)?;
    assert_step(rt, head, ReadStep::Gave, burst)
}

/// All that a head reads, where two bytes wait at each step.
fn assert_steps(
    rt: &(impl Abort + AllocGlobal),
    head: &mut Head<MemoryTransport>,
) -> Result<(), AllocError> {
    // The channel becomes active. That is not a burst, and so it is not held.
    block(rt, head)?;
    assert_step(rt, head, ReadStep::Gave, &ACTIVE)?;
    assert_held(rt, head, &FIRST)?;

    // The second burst, of no element, is held too.
    block(rt, head)?;
    assert_held(rt, head, &SECOND)?;

    // The end is not held. No step is left behind it.
    block(rt, head)?;
    assert_step(rt, head, ReadStep::Gave, &END)?;
    assert_step(rt, head, ReadStep::Done, &[])
}

#[test]
fn burst_by_burst(rt: HostRuntime) -> Result<(), Fail> {
    let mut head = two_bursts(rt.alloc())?;
    Ok(assert_steps(&rt, &mut head)?)
}

/// A plan of chunks has a burst for each list of them, in order, and no abort.
#[test]
fn plan_of_chunks(rt: HostRuntime) -> Result<(), Fail> {
    let alloc = rt.alloc();
    let plan = ReadPlan::of_chunks(alloc, &[&[b"ab", b""], &[]])?;
    let bursts = plan.bursts.as_slice();
    assert!(rt; bursts.len() == 2 && bursts[1].is_empty() && plan.abort_after.is_none());
    let chunks = [
        Element::Chunk(text(alloc, b"ab")?),
        Element::Chunk(text(alloc, b"")?),
    ];
    assert_eq!(rt; bursts[0].as_slice(), chunks.as_slice());
    Ok(())
}
