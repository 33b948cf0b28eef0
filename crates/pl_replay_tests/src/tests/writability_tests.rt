//! Channels that become not writable, and what that holds. The examples are those of docs/FORMATS.md.
ghost use Rattle.std.specs.Prelude.{◌≤◌, ◌<◌};

use crate::tests::net_tests::{
    BOTH_APART, DECODER_APART, GROUPS, THERE_AND_BACK, TOGETHER, assert_enabled, assert_move,
    assert_report, drain, keeps_to_plain, line_protocol, marked_pipeline, move_by, next_number,
    to_its_end, whole,
};
use crate::tests::world_tests::{memory_transport, one_channel};
use crate::tests::{Bursts, FLUSH_EVERY, Kinds, OUT, PING, READ, SUCCESS, Seen};
use pl_build::Groups;
use pl_head::MemoryTransport;
use pl_replay::Net;
use pl_stages::Handler;
use pl_world::{Move, Stands, World};
use std::alloc::Global;
use std::process::Abort;
use std::test::Fail;

/// Built-in handlers over memory.
type MemoryNet = Net<Handler, MemoryTransport>;

/// One channel of these handlers on one loop, with marks and a window.
fn marked_world(
    alloc: Global,
    kinds: Kinds,
    low: u32,
    high: u32,
    window: u32,
    input: Bursts,
) -> Result<World<Handler, MemoryTransport>, Fail>
    requires { 1 ≤ window }
{
    let mut groups = Groups::new(alloc, 1, &GROUPS)?;
    let pipeline = marked_pipeline(alloc, &mut groups, kinds, low, high)?;
    let input = to_its_end(alloc, input)?;
    let transport = memory_transport(alloc, window, None);
    one_channel(alloc, pipeline, input, transport, groups.executors())
}

fn assert_flags(rt: &impl Abort, net: &MemoryNet, want: &[bool]) {
    match net.flags(0) {
        Some(flags) => assert_eq!(rt; flags, want),
        None => panic!(rt; "there is no channel 0"),
    }
}

/// What reaches the tail where `PING` is served twice in one burst.
const TWO_PINGS_TAIL: &[Seen] = &[Seen::Active, Seen::Ping, Seen::Ping, Seen::ReadComplete];

/// What reaches the tail where `PING` is served in each of two bursts.
const TWO_BURSTS_TAIL: &[Seen] = &[
    Seen::Active,
    Seen::Ping,
    Seen::ReadComplete,
    Seen::Ping,
    Seen::ReadComplete,
];

/// Makes moves, each of them enabled, and asserts which flags the tail has taken then.
fn assert_flags_after(
    rt: &impl Abort,
    net: &mut MemoryNet,
    moves: &[Move],
    want: &[bool],
) -> Result<(), Fail> {
    assert_enabled(rt, net, moves)?;
    assert_flags(rt, net, want);
    Ok(())
}

/// Asserts that both replies have left.
fn assert_two_pongs(rt: &impl Abort, net: &MemoryNet, tail: &[Seen]) -> Result<(), Fail> {
    assert_report(
        rt,
        net,
        Stands::Drained,
        tail,
        b"+PONG\r\n+PONG\r\n",
        &[SUCCESS; 2],
    )
}

/// A net of one channel of the line protocol on one loop, with marks and a window.
fn marked_net(
    alloc: Global,
    low: u32,
    high: u32,
    window: u32,
    input: Bursts,
) -> Result<MemoryNet, Fail>
    requires { 1 ≤ window }
{
    let world = marked_world(alloc, &line_protocol(TOGETHER), low, high, window, input)?;
    Ok(Net::new(alloc, world, 4)?)
}

const TWO_PINGS: Bursts = &[&[b"PING\nPING\n"]];

/// The first reply makes the channel not writable, and the last byte of the second makes it writable.
fn assert_watermarks(rt: &impl Abort, net: &mut MemoryNet) -> Result<(), Fail> {
    assert_flags(rt, net, &[]);
    assert_enabled(rt, net, &[READ; 3])?;
    assert_move(rt, net, READ, false)?;
    assert_flags(rt, net, &[false]);
    for _ in 0..5 {
        assert_flags_after(rt, net, &[OUT], &[false])?;
    }
    assert!(rt; !net.drained());
    assert_move(rt, net, OUT, true)?;
    assert_move(rt, net, OUT, false)?;
    assert_flags(rt, net, &[false, true]);
    assert!(rt; net.drained());
    Ok(())
}

#[test]
fn watermarks(rt: HostRuntime) -> Result<(), Fail> {
    let mut net = marked_net(rt.alloc(), 4, 8, 3, TWO_PINGS)?;
    assert_watermarks(&rt, &mut net)?;
    assert_two_pongs(&rt, &net, TWO_PINGS_TAIL)
}

/// A net whose marks are below one reply, with a reply to each of two bursts.
fn two_bursts(alloc: Global, kinds: Kinds) -> Result<MemoryNet, Fail> {
    let world = marked_world(alloc, kinds, 1, 2, 65_536, &[&[b"PING\n"], &[b"PING\n"]])?;
    Ok(Net::new(alloc, world, 4)?)
}

/// A burst is held while the channel is not writable and flushed bytes wait.
fn assert_held(rt: &impl Abort, net: &mut MemoryNet) -> Result<(), Fail> {
    assert_enabled(rt, net, &[READ, READ])?;
    assert_move(rt, net, READ, false)?;
    assert_flags_after(rt, net, &[OUT, READ, READ], &[false, true, false])?;
    assert_flags_after(rt, net, &[OUT], &[false, true, false, true])?;
    assert_two_pongs(rt, net, TWO_BURSTS_TAIL)
}

/// No burst is held by bytes that are not flushed.
fn assert_not_held(rt: &impl Abort, net: &mut MemoryNet) -> Result<(), Fail> {
    assert_flags_after(rt, net, &[READ; 4], &[false])?;
    assert_flags_after(rt, net, &[OUT], &[false])?;
    assert_flags_after(rt, net, &[OUT], &[false, true])?;
    assert_two_pongs(rt, net, TWO_BURSTS_TAIL)
}

/// The second variant lets each second flush pass, and holds nothing.
#[test]
fn burst_held(rt: HostRuntime) -> Result<(), Fail> {
    let mut net = two_bursts(rt.alloc(), &line_protocol(TOGETHER))?;
    assert_held(&rt, &mut net)?;
    drop(net);
    let mut net = two_bursts(rt.alloc(), FLUSH_EVERY)?;
    assert_not_held(&rt, &mut net)
}

/// Low is not below itself.
fn assert_low_is_strict(rt: &impl Abort, net: &mut MemoryNet) -> Result<(), Fail> {
    assert_enabled(rt, net, &[READ; 3])?;
    assert_flags_after(rt, net, &[OUT], &[false])?;
    assert_flags_after(rt, net, &[OUT], &[false, true])
}

/// The marks are strict: high is reached without a change, and low is not below itself.
#[test]
fn marks_are_strict(rt: HostRuntime) -> Result<(), Fail> {
    let mut net = marked_net(rt.alloc(), 7, 14, 7, TWO_PINGS)?;
    assert_flags_after(&rt, &mut net, &[READ; 3], &[])?;
    drop(net);
    let mut net = marked_net(rt.alloc(), 7, 13, 7, TWO_PINGS)?;
    assert_low_is_strict(&rt, &mut net)
}

/// The flags of a reply reach the tail where all is handed over.
fn assert_handed_over(rt: &impl Abort, net: &mut MemoryNet) -> Result<(), Fail> {
    assert_enabled(rt, net, &[READ; 3])?;
    for _ in 0..3 {
        assert_enabled(rt, net, &THERE_AND_BACK)?;
    }
    assert_flags(rt, net, &[]);
    assert_flags_after(rt, net, &[OUT], &[])?;
    assert!(rt; drain(net, 1, 3)?);
    assert_flags(rt, net, &[false, true]);
    Ok(())
}

/// A flag is handed over as an item is, each hop in its lane.
#[test]
fn flags_are_handed_over(rt: HostRuntime) -> Result<(), Fail> {
    let kinds = line_protocol(DECODER_APART);
    let world = marked_world(rt.alloc(), &kinds, 1, 2, 65_536, PING)?;
    let mut net = Net::new(rt.alloc(), world, 1)?;
    assert_handed_over(&rt, &mut net)
}

/// A channel that is not there has no flags.
#[test]
fn flags_of_no_channel(rt: HostRuntime) -> Result<(), Fail> {
    let net = marked_net(rt.alloc(), 4, 8, 3, &[])?;
    assert_flags(&rt, &net, &[]);
    assert!(rt; net.flags(1).is_none());
    assert!(rt; net.flags(65_535).is_none());
    Ok(())
}

const INPUT: Bursts = &[
    &[b"ADD a 7\nPING\n", b"GE"],
    &[b"T a\n"],
    &[],
    &[b"PING\nECHO x\nPING\n"],
];

/// Four bursts, with the decoder and the service each on an executor of its own.
fn small(
    alloc: Global,
    low: u32,
    high: u32,
    window: u32,
) -> Result<World<Handler, MemoryTransport>, Fail>
    requires { 1 ≤ window }
{
    let kinds = line_protocol(BOTH_APART);
    marked_world(alloc, &kinds, low, high, window, INPUT)
}

/// Whether flags alternate, and begin with false.
fn alternate(flags: &[bool]) -> bool {
    let mut was_writable = true;
    for flag in flags {
        if *flag == was_writable {
            return false;
        }
        was_writable = *flag;
    }
    true
}

/// Random schedules of a world with these marks and this window: each report begins the plain one.
fn assert_keep(rt: &impl Abort, alloc: Global, low: u32, high: u32, window: u32) -> Result<(), Fail>
    requires { 1 ≤ window }
{
    let reports = whole(alloc, small(alloc, low, high, window)?)?;
    for seed in 1..9 {
        let world = small(alloc, low, high, window)?;
        keeps_to_plain(rt, alloc, seed, world, reports.as_slice())?;
    }
    Ok(())
}

/// Random moves, after each of which the flags alternate. Where all is written the channel is writable again, if any
/// number of bytes is below the low mark.
fn assert_alternate(rt: &impl Abort, net: &mut MemoryNet, low: u32) -> Result<(), Fail> {
    let mut number = 77;
    for _ in 0..400 {
        number = next_number(number);
        net.apply(move_by(number, 1, 3))?;
        let flags = net.flags(0).unwrap_or(&[]);
        assert!(rt; alternate(flags));
    }
    assert!(rt; drain(net, 1, 3)?);
    let flags = net.flags(0).unwrap_or(&[]);
    assert!(rt; alternate(flags));
    assert!(rt; flags.len() % 2 == 0 || low == 0);
    Ok(())
}

/// Random schedules of a world with these marks and this window: each report begins the plain one, and the flags
/// alternate.
fn schedules(rt: &impl Abort, alloc: Global, low: u32, high: u32, window: u32) -> Result<(), Fail>
    requires { 1 ≤ window }
{
    assert_keep(rt, alloc, low, high, window)?;
    let mut net = Net::new(alloc, small(alloc, low, high, window)?, 1)?;
    assert_alternate(rt, &mut net, low)
}

#[test]
fn small_marks_and_windows(rt: HostRuntime) -> Result<(), Fail> {
    schedules(&rt, rt.alloc(), 1, 2, 1)?;
    schedules(&rt, rt.alloc(), 4, 8, 3)?;
    schedules(&rt, rt.alloc(), 0, 0, 65_536)?;
    schedules(&rt, rt.alloc(), 0, 5, 2)
}
