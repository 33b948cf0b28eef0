//! Every example's session by schedules made here: a fair one drains it and reports what `plain` does, and whatever
//! random ones come to begins that report.

use crate::tests::sessions;
use pl_head::MemoryTransport;
use pl_replay::Net;
use pl_stages::Handler;
use pl_text::read_session;
use pl_world::{ChannelReport, Move, Report, Session, Stands, plain};
use std::alloc::Global;
use std::process::Abort;
use std::test::Fail;

/// Each move that names what is there, once.
fn all_moves(alloc: Global, channels: u16, executors: u16) -> Result<Vec<Move>, Fail> {
    let mut moves = Vec::new(alloc);
    for channel in 0..channels {
        moves.extend_from_slice(&[Move::Read(channel), Move::Out(channel)])?;
    }
    for executor in 0..executors {
        moves.extend_from_slice(&[Move::Task(executor), Move::Hand(executor)])?;
    }
    Ok(moves)
}

/// A net of a session, and all of its moves.
fn begun(alloc: Global, text: &str) -> Result<(Net<Handler, MemoryTransport>, Vec<Move>), Fail> {
    let Session { world, capacity } = read_session(alloc, text)?;
    let moves = all_moves(alloc, world.channels().len() as u16, world.executors())?;
    Ok((Net::new(alloc, world, capacity)?, moves))
}

/// The whole report of a session.
pub(crate) fn whole(alloc: Global, text: &str) -> Result<Report, Fail> {
    Ok(plain(alloc, read_session(alloc, text)?)?)
}

/// Makes each move in turn, round after round, until a whole round moves nothing.
fn go_round(net: &mut Net<Handler, MemoryTransport>, moves: &[Move]) -> Result<(), Fail> {
    for _ in 0..10_000 {
        let mut has_moved = false;
        for step in moves {
            has_moved |= net.apply(*step)?;
        }
        if !has_moved {
            break;
        }
    }
    Ok(())
}

fn is_prefix<T: PartialEq>(part: &[T], whole: &[T]) -> bool {
    if part.len() > whole.len() {
        return false;
    }
    part == &whole[..part.len()]
}

/// Whether what a channel's tail and transport got is all of this report.
fn is_whole(part: &ChannelReport, whole: &ChannelReport) -> bool {
    part.tail.as_slice() == whole.tail.as_slice()
        && part.bytes.as_slice() == whole.bytes.as_slice()
        && part.writes.as_slice() == whole.writes.as_slice()
}

/// Whether what a channel's tail and transport got begins this report, and is all of it where the channel is drained.
pub(crate) fn begins(part: &ChannelReport, whole: &ChannelReport) -> bool {
    is_prefix(part.tail.as_slice(), whole.tail.as_slice())
        && is_prefix(part.bytes.as_slice(), whole.bytes.as_slice())
        && (part.stands != Stands::Drained || is_whole(part, whole))
}

/// Each channel is open or drained, and begins its whole report.
fn assert_begins(rt: &impl Abort, part: &Report, whole: &Report, text: &str) {
    let (parts, wholes) = (part.channels.as_slice(), whole.channels.as_slice());
    assert_eq!(rt; parts.len(), wholes.len());
    for (part, whole) in parts.iter().zip(wholes) {
        let stands = part.stands == Stands::Open || part.stands == whole.stands;
        assert!(rt; stands && begins(part, whole), "{part:?} of {text}");
    }
}

/// Each channel has the whole report.
fn assert_whole(rt: &impl Abort, part: &Report, whole: &Report, text: &str) {
    let (parts, wholes) = (part.channels.as_slice(), whole.channels.as_slice());
    assert_eq!(rt; parts.len(), wholes.len());
    for (part, whole) in parts.iter().zip(wholes) {
        let stands = part.stands == whole.stands;
        assert!(rt; stands && is_whole(part, whole), "{part:?} of {text}");
    }
}

/// A net is drained, and its report is the whole one.
fn assert_drained(
    rt: &impl Abort,
    net: &Net<Handler, MemoryTransport>,
    whole: &Report,
    text: &str,
) -> Result<(), Fail> {
    assert!(rt; net.drained(), "{text}");
    assert_whole(rt, &net.report()?, whole, text);
    Ok(())
}

/// The net of a session after every move in turn.
fn gone_round(alloc: Global, text: &str) -> Result<Net<Handler, MemoryTransport>, Fail> {
    let (mut net, moves) = begun(alloc, text)?;
    go_round(&mut net, moves.as_slice())?;
    Ok(net)
}

#[test]
fn a_fair_schedule_drains_every_example(rt: HostRuntime) -> Result<(), Fail> {
    let texts = sessions::examples(&rt)?;
    for text in texts.as_slice() {
        let whole = whole(rt.alloc(), text.as_str())?;
        let net = gone_round(rt.alloc(), text.as_str())?;
        assert_drained(&rt, &net, &whole, text.as_str())?;
    }
    Ok(())
}

/// The next of a series of numbers, whose upper half is as good as random (Knuth's linear congruential generator).
fn next_number(number: u64) -> u64 {
    number
        .wrapping_mul(6_364_136_223_846_793_005)
        .wrapping_add(1_442_695_040_888_963_407)
}

/// The flags of each channel say in turn that it is not writable, and that it is writable again.
fn assert_flags(rt: &impl Abort, net: &Net<Handler, MemoryTransport>, text: &str) {
    for channel in 0..u16::MAX {
        let Some(flags) = net.flags(channel) else {
            break;
        };
        for (index, is_writable) in flags.iter().enumerate() {
            assert!(rt; *is_writable == (index % 2 == 1), "{text}");
        }
    }
}

/// How many random moves are made.
const RANDOM_MOVES: u16 = 400;

/// Makes random moves, and looks at the report and the flags after each.
fn go_random(
    rt: &impl Abort,
    net: &mut Net<Handler, MemoryTransport>,
    moves: &[Move],
    seed: u64,
    whole: &Report,
    text: &str,
) -> Result<(), Fail> {
    assert!(rt; !moves.is_empty());
    let mut number = seed;
    for _ in 0..RANDOM_MOVES {
        number = next_number(number);
        let index = (number >> 32) % moves.len() as u64;
        net.apply(moves[index as usize])?;
        assert_begins(rt, &net.report()?, whole, text);
        assert_flags(rt, net, text);
    }
    Ok(())
}

/// Makes random moves, and then each move in turn, which drains the session.
fn assert_keeps(
    rt: &impl Abort,
    alloc: Global,
    text: &str,
    seed: u64,
    whole: &Report,
) -> Result<(), Fail> {
    let (mut net, moves) = begun(alloc, text)?;
    go_random(rt, &mut net, moves.as_slice(), seed, whole, text)?;
    go_round(&mut net, moves.as_slice())?;
    assert_flags(rt, &net, text);
    assert_drained(rt, &net, whole, text)
}

/// Each channel is writable: as many flags say so as say the contrary. It answers whether there are any.
fn assert_writable(rt: &impl Abort, net: &Net<Handler, MemoryTransport>, text: &str) -> bool {
    let mut has_flags = false;
    for channel in 0..u16::MAX {
        let Some(flags) = net.flags(channel) else {
            break;
        };
        assert!(rt; flags.len() % 2 == 0, "{text}");
        has_flags |= !flags.is_empty();
    }
    has_flags
}

/// Each example is written whole, so its channels are writable at the end.
#[test]
fn writable_at_the_end(rt: HostRuntime) -> Result<(), Fail> {
    let texts = sessions::examples(&rt)?;
    let mut has_flags = false;
    for text in texts.as_slice() {
        let net = gone_round(rt.alloc(), text.as_str())?;
        has_flags |= assert_writable(&rt, &net, text.as_str());
    }
    assert!(rt; has_flags);
    Ok(())
}

#[test]
fn random_schedules_give_prefixes(rt: HostRuntime) -> Result<(), Fail> {
    let texts = sessions::examples(&rt)?;
    for text in texts.as_slice() {
        let whole = whole(rt.alloc(), text.as_str())?;
        for seed in 1..13 {
            assert_keeps(&rt, rt.alloc(), text.as_str(), seed, &whole)?;
        }
    }
    Ok(())
}
