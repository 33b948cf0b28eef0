//! Schedules that are made drain what can be drained, and read back as what was made.

use crate::tests::running::{run, same, says};
use crate::tests::sessions::{HELD, TWO, failing};
use pl_replay::{Net, replay};
use pl_schedule::{Order, schedule};
use pl_text::{moves_as_text, print_report, read_moves, read_session};
use pl_text_tests::{DECODER_APART, PING_SESSION};
use pl_world::{Move, Session, Stands, plain};
use rand_core::Rng;
use rand_pcg::Pcg32;
use std::alloc::Global;
use std::process::Abort;
use std::test::Fail;

#[test]
fn ping(rt: HostRuntime) -> Result<(), Fail> {
    let said = "channel 0 drained\n4 moves, no move is enabled any more\n";
    let moves = "R0 R0 O0 R0\n";
    for &words in &[["schedule"].as_slice(), ["schedule", "--fair"].as_slice()] {
        says(&rt, words, PING_SESSION, 0, moves, said)?;
    }
    Ok(())
}

/// No channel, and so no move.
#[test]
fn nothing(rt: HostRuntime) -> Result<(), Fail> {
    let session = r#"{"version":1,"capacity":1,"loops":1,"channels":[]}"#;
    let said = "0 moves, no move is enabled any more\n";
    says(&rt, &["schedule"], session, 0, "\n", said)
}

#[test]
fn fails(rt: HostRuntime) -> Result<(), Fail> {
    let session = failing(rt.alloc())?;
    let said = run(&rt, &["schedule", "--seed", "7"], session.as_str())?;
    same(&rt, said.status, 1);
    assert!(rt; said.err()?.starts_with("channel 0 failed Transport\n"));
    assert!(rt;
        said.err()?
            .ends_with(" moves, no move is enabled any more\n")
    );
    Ok(())
}

/// The report of a session that drains.
fn whole_report(alloc: Global, session: &str) -> Result<Vec<u8>, Fail> {
    let report = plain(alloc, read_session(alloc, session)?)?;
    let mut text = Vec::new(alloc);
    print_report(alloc, &report, &mut text)?;
    Ok(text)
}

/// Says that moves, once printed, read back as they are.
fn reads_back(rt: &impl Abort, alloc: Global, moves: &[Move]) -> Result<(), Fail> {
    let text = moves_as_text(alloc, moves)?;
    let read = read_moves(alloc, text.as_str())?;
    same(rt, read.as_slice(), moves);
    Ok(())
}

/// Says that a schedule that is made reads back, and that its report is that of its replay: the whole one, where all is drained.
fn replays_in(
    rt: &impl Abort,
    alloc: Global,
    session: &str,
    order: Order,
    whole: &[u8],
) -> Result<(), Fail> {
    let made = schedule(alloc, read_session(alloc, session)?, order)?;
    assert!(rt; made.is_over);
    reads_back(rt, alloc, made.moves.as_slice())?;
    let report = replay(alloc, read_session(alloc, session)?, made.moves.as_slice())?;
    let (mut said, mut replayed) = (Vec::new(alloc), Vec::new(alloc));
    print_report(alloc, &made.report, &mut said)?;
    print_report(alloc, &report, &mut replayed)?;
    same(rt, said.as_slice(), replayed.as_slice());
    let mut channels = report.channels.as_slice().iter();
    if channels.all(|channel| channel.stands == Stands::Drained) {
        same(rt, said.as_slice(), whole);
    }
    Ok(())
}

/// In turn, and for each of some seeds.
#[test]
fn replays(rt: HostRuntime) -> Result<(), Fail> {
    let alloc = rt.alloc();
    let failing = failing(alloc)?;
    for &session in &[PING_SESSION, DECODER_APART, HELD, failing.as_str(), TWO] {
        let whole = whole_report(alloc, session)?;
        replays_in(&rt, alloc, session, Order::Fair, whole.as_slice())?;
        for seed in 1..9u64 {
            replays_in(&rt, alloc, session, Order::Seed(seed), whole.as_slice())?;
        }
    }
    Ok(())
}

/// Whatever the order, a session without failures is drained.
#[test]
fn drains(rt: HostRuntime) -> Result<(), Fail> {
    let alloc = rt.alloc();
    for &session in &[PING_SESSION, DECODER_APART, HELD] {
        for &seed in &["0", "1", "18446744073709551615"] {
            let said = run(&rt, &["schedule", "--seed", seed], session)?;
            same(&rt, said.status, 0);
        }
    }
    Ok(())
}

/// Makes moves of a session, and says of each that it is made just where nothing hinders it. It answers whether all is drained.
fn moved(rt: &impl Abort, alloc: Global, session: &str) -> Result<bool, Fail> {
    let Session { world, capacity } = read_session(alloc, session)?;
    let mut net = Net::new(alloc, world, capacity)?;
    let mut generator = Pcg32::new(7, 0);
    for _ in 0..2_000 {
        let step = drawn_move(&mut generator);
        let is_free = net.hindrance(step).is_none();
        let is_made = net.apply(step) != Ok(false);
        same(rt, is_made, is_free);
    }
    Ok(net.drained())
}

/// A net says before each move whether something hinders it; of a move that names nothing, it says that nothing does.
#[test]
fn hindrances(rt: HostRuntime) -> Result<(), Fail> {
    let alloc = rt.alloc();
    let failing = failing(alloc)?;
    for &session in &[PING_SESSION, DECODER_APART, HELD] {
        assert!(rt; moved(&rt, alloc, session)?);
    }
    for &session in &[failing.as_str(), TWO] {
        assert!(rt; !moved(&rt, alloc, session)?);
    }
    Ok(())
}

/// A move of one of two channels, or of one of four executors: the sessions have no more.
fn drawn_move(generator: &mut Pcg32) -> Move {
    let number = (generator.next_u32() % 4) as u16;
    match generator.next_u32() % 4 {
        0 => Move::Read(number % 2),
        1 => Move::Task(number),
        2 => Move::Hand(number),
        _ => Move::Out(number % 2),
    }
}
