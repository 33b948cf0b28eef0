//! What another thread sees of a run, by the words of its channels, while the run goes on.

ghost use Rattle.std.specs.Prelude.{IfOk};
ghost use Rattle.pl_exec.specs.SessionWords.{AreHeadSeatsOf, HaveMarksOf, IsReaderOf};

use crate::sessions::{PING, QUEUES, decoded_apart, on_loops, with_channel};
use crate::words_tests::{assert_same, pair};
use pl_event::{Command, Event, Message, Outcome};
use pl_exec::{Gate, HeadSeats, Reader, Words, run_with};
use pl_text::read_session;
use pl_words::watermark::Mark;
use pl_world::{ChannelReport, Report, Session, Stands};
use std::alloc::Global;
use std::process::Abort;
use std::sync::Wait;
use std::sync::atomic::{AtomicU64, Ordering};
use std::test::Fail;
use std::thread;
use std::thread::Threads;

/// How often a thread looks for what another does, before the test fails.
const LOOKS: u32 = 10_000_000;

/// How often a promise is looked at that must not be settled.
const LOOKS_WHILE_UNSET: u32 = 1_000_000;

/// The mark of a channel before any call on its head.
const UNMARKED: Option<Mark> = Some(Mark {
    version: 0,
    unwritable: false,
});

/// The mark of a channel that has answered PING: it was set where the answer came to the head, and where that was written.
const ANSWERED: Option<Mark> = Some(Mark {
    version: 2,
    unwritable: false,
});

/// Which turns a gate holds up.
#[derive(Clone, Copy, Debug, PartialEq, Eq)]
enum Holds {
    None,
    /// The first turn of executor 0 waits for flag a, and that of executor 1 for flag b.
    FirstTurns,
    /// This turn of this executor raises flag a, and waits for flag b.
    Turn(u16, u64),
}

/// What the threads of a test share: the words of a session, and a gate with two flags.
#[derive(Drop)]
struct Shared {
    words: Words,
    holds: Holds,
    a: AtomicU64,
    b: AtomicU64,
    /// How often one of the flags was looked for in vain.
    missed: AtomicU64,
}

impl Shared {
    /// Waits until a flag is raised, or notes that it was not.
    fn wait_for(&self, flag: &AtomicU64) {
        for _ in 0..LOOKS {
            if flag.load(Ordering::SeqCst) == 1 {
                return;
            }
            thread::yield_now();
        }
        self.missed.fetch_add(1, Ordering::SeqCst);
    }
}

impl Gate for Shared {
    fn enter(&self, executor: u16, turn: u64) {
        match (self.holds, executor, turn) {
            (Holds::FirstTurns, 0, 0) => self.wait_for(&self.a),
            (Holds::FirstTurns, 1, 0) => self.wait_for(&self.b),
            (Holds::Turn(held, number), _, _) => {
                if held == executor && number == turn {
                    raise(&self.a);
                    self.wait_for(&self.b);
                }
            }
            _ => {}
        }
    }
}

fn raise(flag: &AtomicU64) {
    flag.store(1, Ordering::SeqCst);
}

/// A session with its words, one reader of them for another thread, and one for later.
#[derive(Drop)]
struct Watched {
    session: Session,
    shared: Shared,
    seats: HeadSeats,
    reader: Reader,
    later: Reader,
}

fn watch(alloc: Global, text: &str, holds: Holds) -> Result<Watched, Fail>
    ensures { IfOk result (λ w. AreHeadSeatsOf w.shared.words w.seats × HaveMarksOf w.seats w.session.world.channels × IsReaderOf w.shared.words w.reader × IsReaderOf w.shared.words w.later) }
{
    let session = read_session(alloc, text)?;
    let (words, seats, readers) = Words::new(alloc, &session, 2)?;
    let (reader, later) = pair(readers);
    let shared = Shared {
        words,
        holds,
        a: AtomicU64::new(0),
        b: AtomicU64::new(0),
        missed: AtomicU64::new(0),
    };
    Ok(Watched {
        session,
        shared,
        seats,
        reader,
        later,
    })
}

/// Looks at the first promise of a channel until it is settled, or as often as it may.
fn first_outcome(words: &Words, channel: usize, reader: &mut Reader) -> Option<Outcome>
    requires { IsReaderOf words.now reader.old }
    ensures { IsReaderOf words.now reader.new }
{
    'looks: for _ in 0..LOOKS {
        let found = words.peek(channel, 0, reader);
        if found.is_some() {
            return found;
        }
        thread::yield_now();
    }
    None
}

/// Whether the first promise of a channel is unset, as often as it is looked at.
fn stays_unset(words: &Words, channel: usize, reader: &mut Reader, looks: u32) -> bool
    requires { IsReaderOf words.now reader.old }
    ensures { IsReaderOf words.now reader.new }
{
    let mut is_unset = true;
    'looks: for _ in 0..looks {
        if words.peek(channel, 0, reader).is_some() {
            is_unset = false;
        }
    }
    is_unset
}

/// A channel took PING and answered.
fn has_answered(channel: &ChannelReport) -> bool {
    let took_ping = matches!(
        channel.tail.as_slice(),
        [
            Event::Active,
            Event::Read(Message::Command(Command::Ping)),
            Event::ReadComplete
        ]
    );
    channel.stands == Stands::Drained
        && took_ping
        && channel.bytes.as_slice() == b"+PONG\r\n".as_slice()
        && channel.writes.as_slice() == [Some(Outcome::Success)].as_slice()
}

/// There is a report of so many channels, and each took PING and answered.
fn have_answered(report: &Report, channels: usize) -> bool {
    let reports = report.channels.as_slice();
    reports.len() == channels && reports.iter().all(|channel| has_answered(channel))
}

/// Sees the first promise of channel 0 unset, lets its executor go on, and waits until it is settled; then so with channel 1.
fn one_after_another(shared: &Shared, mut reader: Reader) -> bool
    requires { IsReaderOf shared.now.words reader }
{
    let is_first_unset = shared.words.peek(0, 0, &mut reader).is_none();
    raise(&shared.a);
    let first = first_outcome(&shared.words, 0, &mut reader);
    let is_second_unset = shared.words.peek(1, 0, &mut reader).is_none();
    raise(&shared.b);
    is_first_unset && first == Some(Outcome::Success) && is_second_unset
}

/// Waits until an executor is held up, sees the words of channel 0 as they were at the start, lets it go on, and waits until
/// the first promise is settled.
fn while_held_up(shared: &Shared, mut reader: Reader) -> bool
    requires { IsReaderOf shared.now.words reader }
{
    shared.wait_for(&shared.a);
    let is_unset = stays_unset(&shared.words, 0, &mut reader, LOOKS_WHILE_UNSET);
    let is_unmarked = shared.words.look(0, &mut reader) == UNMARKED;
    raise(&shared.b);
    is_unset
        && is_unmarked
        && first_outcome(&shared.words, 0, &mut reader) == Some(Outcome::Success)
}

/// What this other thread sees.
fn watches(shared: &Shared, mut reader: Reader) -> bool
    requires { IsReaderOf shared.now.words reader }
{
    match shared.holds {
        Holds::None => first_outcome(&shared.words, 0, &mut reader) == Some(Outcome::Success),
        Holds::FirstTurns => one_after_another(shared, reader),
        Holds::Turn(_, _) => while_held_up(shared, reader),
    }
}

/// Runs a session whose channels take PING over each kind of queue, while another thread looks at its words. Afterwards they
/// still say so.
fn seen_while_running<R: Abort + Threads + Wait + Sync>(
    rt: &R,
    alloc: Global,
    text: &str,
    channels: usize,
    holds: Holds,
) -> Result<(), Fail> {
    for queue in QUEUES {
        let Watched {
            session,
            shared,
            seats,
            reader,
            mut later,
        } = watch(alloc, text, holds)?;
        let shared = &shared;
        let (report, is_seen) = thread::join(
            rt,
            move || -> Option<Report>
                requires own { AreHeadSeatsOf shared.now.words seats }
                requires marks { HaveMarksOf seats session.world.channels }
            { run_with(rt, alloc, session, queue, shared, &shared.words, seats).ok() },
            move || -> bool
                requires { IsReaderOf shared.now.words reader }
            { watches(shared, reader) },
        );
        assert!(rt; is_seen);
        let first = shared.words.peek(0, 0, &mut later);
        assert_same(rt, first, Some(Outcome::Success));
        assert_same(rt, shared.words.look(0, &mut later), ANSWERED);
        assert_same(rt, shared.missed.load(Ordering::SeqCst), 0);
        assert!(rt; report.is_some_and(|report| have_answered(&report, channels)));
    }
    Ok(())
}

#[test]
fn promise_seen_by_another_thread(rt: HostRuntime) -> Result<(), Fail> {
    let session = on_loops(rt.alloc(), &[PING])?;
    seen_while_running(&rt, rt.alloc(), session.as_str(), 1, Holds::None)
}

#[test]
fn channel_by_channel(rt: HostRuntime) -> Result<(), Fail> {
    let session = on_loops(rt.alloc(), &[PING, PING])?;
    seen_while_running(&rt, rt.alloc(), session.as_str(), 2, Holds::FirstTurns)
}

#[test]
fn work_on_its_own_thread(rt: HostRuntime) -> Result<(), Fail> {
    let session = decoded_apart(rt.alloc(), 4)?;
    seen_while_running(&rt, rt.alloc(), session.as_str(), 1, Holds::Turn(1, 1))
}

/// The first turn of a loop reads the opening event, and the second the burst, which it answers and writes: while the gate
/// has either, nothing of it has moved.
#[test]
fn gate_is_entered_before_a_turn_moves(rt: HostRuntime) -> Result<(), Fail> {
    let session = on_loops(rt.alloc(), &[PING])?;
    for turn in 0..2 {
        seen_while_running(&rt, rt.alloc(), session.as_str(), 1, Holds::Turn(0, turn))?;
    }
    Ok(())
}

/// Whether the promises of channel 0 say these outcomes of its writes, and no more.
fn says(words: &Words, reader: &mut Reader, outcomes: &[Outcome]) -> bool
    requires { IsReaderOf words.now reader.old }
    ensures { IsReaderOf words.now reader.new }
{
    let mut is_said = true;
    'writes: for number in 0..outcomes.len() {
        if words.peek(0, number as u64, reader) != Some(outcomes[number]) {
            is_said = false;
        }
    }
    is_said && words.peek(0, outcomes.len() as u64, reader).is_none()
}

/// Runs a session of one channel over each kind of queue. Its promises then say these outcomes of its writes.
fn assert_told<R: Abort + Threads + Wait + Sync>(
    rt: &R,
    alloc: Global,
    text: &str,
    outcomes: &[Outcome],
) -> Result<(), Fail> {
    for queue in QUEUES {
        let Watched {
            mut reader,
            session,
            seats,
            shared,
            ..
        } = watch(alloc, text, Holds::None)?;
        let report = run_with(rt, alloc, session, queue, &shared, &shared.words, seats);
        assert!(rt; report.is_ok());
        assert!(rt; says(&shared.words, &mut reader, outcomes));
    }
    Ok(())
}

/// Of three flushes the second passes: two replies leave, and the third is closed by the end.
#[test]
fn closed_write_is_told(rt: HostRuntime) -> Result<(), Fail> {
    let session = with_channel(
        rt.alloc(),
        r#"{"op":"last","name":"pairs","kind":"flush_every","n":2},"#,
        r#""bursts":[["PING\r\n"],["PING\r\n"],["PING\r\n"]]"#,
    )?;
    let outcomes = [Outcome::Success, Outcome::Success, Outcome::Closed];
    assert_told(&rt, rt.alloc(), session.as_str(), &outcomes)
}

/// The third call of the transport fails: the first reply took two.
#[test]
fn fault_is_told(rt: HostRuntime) -> Result<(), Fail> {
    let session = with_channel(
        rt.alloc(),
        "",
        r#""window":4,"fail_at":3,"bursts":[["PING\nQUIT\n"]]"#,
    )?;
    let outcomes = [Outcome::Success, Outcome::Fault];
    assert_told(&rt, rt.alloc(), session.as_str(), &outcomes)
}
