//! A handler that counts in a pipeline of its own: replayed, and run on threads while another thread looks on.

ghost use Rattle.std.specs.Prelude.{◌≡◌, ◌∷◌, [], length};
ghost use Rattle.pl_exec.specs.SessionWords.{AreHeadSeatsOf, HaveMarksOf, IsReaderOf};

use crate::Lines;
use pl_build::{Groups, PipelineBuilder};
use pl_event::{Either, Fused, Outcome};
use pl_exec::{Gate, QueueKind, Ran, Reader, Words, run_world_with};
use pl_head::MemoryTransport;
use pl_replay::replay_world;
use pl_stages::{CommandDecoder, Handler, LineFramer, LineService, ReplyEncoder};
use pl_world::{Move, Report, Stands, World};
use std::alloc::Global;
use std::sync::Arc;
use std::sync::atomic::{AtomicU64, Ordering};
use std::test::Fail;
use std::thread;

type Any = Either<Handler, Fused<Lines>>;

/// What its one channel reads: two lines, cut in the midst of the second.
const INPUT: &[&[&[u8]]] = &[&[b"PING\r\nPI", b"NG\r\n"]];

/// Lines are counted by the executor of the group `own`, and all else is done by the loop.
fn world(alloc: Global, told: &Arc<AtomicU64>) -> Result<World<Any, MemoryTransport>, Fail> {
    let lines = LineFramer::new(alloc, 64)?;
    let decode = CommandDecoder::new();
    let encode = ReplyEncoder::new();
    let service = LineService::new(alloc);
    let counter = Lines::new(Arc::try_clone(told)?);
    let mut builder = PipelineBuilder::new(alloc);
    builder.add_last("lines", None, Either::Left(Handler::Lines(lines)))?;
    builder.add_last("count", Some("own"), Either::Right(counter))?;
    builder.add_last("decode", None, Either::Left(Handler::Decode(decode)))?;
    builder.add_last("encode", None, Either::Left(Handler::Encode(encode)))?;
    builder.add_last("service", None, Either::Left(Handler::Service(service)))?;
    let mut groups = Groups::new(alloc, 1, &[("own", 1)])?;
    let pipelines = vec![in alloc; builder.build(&mut groups)?]?;
    Ok(World::over_memory(alloc, pipelines, &[INPUT], groups.executors())?)
}

/// Both lines were answered.
fn is_answer(report: &Report) -> bool {
    let bytes = b"+PONG+PONG".as_slice();
    let channel = report.channels.as_slice().first();
    channel.is_some_and(|c| c.stands == Stands::Drained && c.bytes.as_slice() == bytes)
}

#[test]
fn counted_in_a_replay(rt: HostRuntime) -> Result<(), Fail> {
    let alloc = rt.alloc();
    let told = Arc::new(alloc, AtomicU64::new(0))?;
    let mut moves = Vec::new(alloc);
    for _ in 0..20 {
        moves.extend_from_slice(&[Move::Read(0), Move::Hand(0), Move::Task(1)])?;
        moves.extend_from_slice(&[Move::Hand(1), Move::Task(0), Move::Out(0)])?;
    }
    let report = replay_world(alloc, world(alloc, &told)?, 1, moves.as_slice())?;
    assert!(rt; is_answer(&report));
    assert_eq!(rt; told.load(Ordering::SeqCst), 2);
    Ok(())
}

/// Counts the turns of all executors.
#[derive(Default, Drop)]
struct Turns(AtomicU64);

impl Gate for Turns {
    fn enter(&self, _executor: u16, _turn: u64) {
        self.0.fetch_add(1, Ordering::SeqCst);
    }
}

/// The only reader there is.
fn only(mut readers: Vec<Reader>) -> Reader
    requires { length readers.items ≡ 1 }
    ensures { readers.items ≡ result ∷ [] }
{
    readers.pop().unwrap()
}

/// Waits for the first write to end: how it did, and whether the channel is unwritable then.
fn watches(words: &Words, mut reader: Reader) -> Option<(Outcome, bool)>
    requires { IsReaderOf words.now reader }
{
    'looks: for _ in 0..10_000_000 {
        if let Some(outcome) = words.peek(0, 0, &mut reader) {
            return Some((outcome, words.look(0, &mut reader)?.unwritable));
        }
        thread::yield_now();
    }
    None
}

#[test]
fn counted_on_threads(rt: HostRuntime) -> Result<(), Fail> {
    let alloc = rt.alloc();
    let told = Arc::new(alloc, AtomicU64::new(0))?;
    let world = world(alloc, &told)?;
    let (words, seats, readers) = Words::of_world(alloc, &world, 1)?;
    let reader = only(readers);
    let turns = Turns::default();
    let (machine, shared, gate, queue) = (&rt, &words, &turns, QueueKind::Ring);
    let (ran, seen) = thread::join(
        &rt,
        move || -> Option<Ran<Any>>
            requires own { AreHeadSeatsOf shared.now seats }
            requires marks { HaveMarksOf seats world.channels }
        { run_world_with(machine, alloc, world, 64, queue, gate, shared, seats).ok() },
        move || -> Option<(Outcome, bool)>
            requires { IsReaderOf shared.now reader }
        { watches(shared, reader) },
    );
    assert!(rt; ran.is_some_and(|ran| is_answer(&ran.report)));
    assert_eq!(rt; seen, Some((Outcome::Success, false)));
    assert_eq!(rt; told.load(Ordering::SeqCst), 2);
    assert!(rt; turns.0.load(Ordering::SeqCst) >= 2);
    Ok(())
}
