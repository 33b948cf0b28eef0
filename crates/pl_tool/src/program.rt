//! The program over a reader and two writers.

ghost use Rattle.std.specs.Prelude.{◌≡◌, ◌≢◌, ◌⊎◌, ◌≤◌, List, ℕ, Bool, true, false, map, string_bytes, None, Some, IfErr, IfOk};
ghost use Rattle.std.specs.IoError.{error_kind};
ghost use Rattle.std.specs.Io.KnownBytes.{Keeps};
ghost use Rattle.pl_tool.specs.ProgramFailures.{failure_line, failure_of_args, status_of};
ghost use Rattle.pl_tool.specs.ProgramLines.{Plain, Replay, Run, request_of, request_view};
ghost use Rattle.pl_tool.specs.ProgramOutcomes.{AppendsPrefixOf, Explains, HasFailed, HasPrinted, IsCause, IsReported, TakesAtMost, all_drained};

mod command_line;
mod failure;
mod input;
mod last_line;

use command_line::{Request, request_of};
use failure::Failure;
pub use input::MAX_INPUT;
use input::take_session;
use last_line::say_last;
use pl_exec::{Gate, QueueKind, run};
use pl_replay::replay;
use pl_text::{print_report, read_moves};
use pl_world::{Report, Stands, plain};
use std::alloc::Global;
use std::io;
use std::io::{Read, Write};
use std::sync::Wait;
use std::thread::Threads;

/// A gate that does nothing.
#[derive(Drop)]
struct NoGate;

impl Gate for NoGate {
    /// Lets every turn begin.
    fn enter(&self, _executor: u16, _turn: u64) {}
}

/// The report of a replay by the moves of a text. They are read before the session.
fn replayed<R: Read>(alloc: Global, text: &str, reader: &mut R) -> Result<Report, Failure>
    ensures ok { IfOk result (λ report. IsReported (Some (Replay text.now)) (R.remaining reader.old) (R.remaining reader.new) report) }
    ensures err { IfErr result (λ e. IsCause e (Some (Replay text.now)) (R.remaining reader.old) (R.remaining reader.new)) }
    ensures at_most { TakesAtMost MAX_INPUT (R.remaining reader.old) (R.remaining reader.new) }
{
    let moves = read_moves(alloc, text)?;
    let session = take_session(alloc, reader)?;
    let report = replay(alloc, session, moves.as_slice())?;
    Ok(report)
}

/// The report of a run by executors with these queues.
fn ran<T: Threads + Wait + Sync, R: Read>(
    rt: &T,
    alloc: Global,
    queue: QueueKind,
    reader: &mut R,
) -> Result<Report, Failure>
    ensures ok { IfOk result (λ report. IsReported (Some (Run queue)) (R.remaining reader.old) (R.remaining reader.new) report) }
    ensures err { IfErr result (λ e. IsCause e (Some (Run queue)) (R.remaining reader.old) (R.remaining reader.new)) }
    ensures at_most { TakesAtMost MAX_INPUT (R.remaining reader.old) (R.remaining reader.new) }
{
    let session = take_session(alloc, reader)?;
    let report = run(rt, alloc, session, queue, &NoGate)?;
    Ok(report)
}

/// The whole report of a session.
fn composed<R: Read>(alloc: Global, reader: &mut R) -> Result<Report, Failure>
    ensures ok { IfOk result (λ report. IsReported (Some Plain) (R.remaining reader.old) (R.remaining reader.new) report) }
    ensures err { IfErr result (λ e. IsCause e (Some Plain) (R.remaining reader.old) (R.remaining reader.new)) }
    ensures at_most { TakesAtMost MAX_INPUT (R.remaining reader.old) (R.remaining reader.new) }
{
    let session = take_session(alloc, reader)?;
    let report = plain(alloc, session)?;
    Ok(report)
}

/// The report that is requested.
fn report_of<T: Threads + Wait + Sync, R: Read>(
    rt: &T,
    alloc: Global,
    request: Request<'_>,
    reader: &mut R,
) -> Result<Report, Failure>
    ensures ok { IfOk result (λ report. IsReported (Some (request_view request.entry)) (R.remaining reader.old) (R.remaining reader.new) report) }
    ensures err { IfErr result (λ e. IsCause e (Some (request_view request.entry)) (R.remaining reader.old) (R.remaining reader.new)) }
    ensures at_most { TakesAtMost MAX_INPUT (R.remaining reader.old) (R.remaining reader.new) }
{
    match request {
        Request::Replay(text) => replayed(alloc, text, reader),
        Request::Run(queue) => ran(rt, alloc, queue, reader),
        Request::Plain => composed(alloc, reader),
    }
}

/// Whether every channel is drained.
fn all_drained(report: &Report) -> bool
    ensures { result ≡ all_drained report.now }
{
    report
        .channels
        .as_slice()
        .iter()
        .all(|channel| channel.stands == Stands::Drained)
}

/// Reads the command line, the moves and the session, in this order, and prints the report that is requested. It says
/// whether every channel is drained.
fn print_requested<T: Threads + Wait + Sync, R: Read, W: Write>(
    rt: &T,
    alloc: Global,
    args: &[String],
    reader: &mut R,
    out: &mut W,
) -> Result<bool, Failure>
    ensures ok { IfOk result (λ drained. HasPrinted drained (request_of (map string_bytes args.now))
        (R.remaining reader.old) (R.remaining reader.new) (W.contents out.old) (W.contents out.new)) }
    ensures err { IfErr result (λ e. Explains e (request_of (map string_bytes args.now))
        (R.remaining reader.old) (R.remaining reader.new) (W.contents out.old) (W.contents out.new)) }
    ensures at_most { TakesAtMost MAX_INPUT (R.remaining reader.old) (R.remaining reader.new) }
{
    let request = request_of(alloc, args).ok_or(Failure::Usage)?;
    let report = report_of(rt, alloc, request, reader)?;
    print_report(alloc, &report, out)?;
    Ok(all_drained(&report))
}

/// The program (`docs/FORMATS.md`, "Program"): reads the command line `args`, of which the first is the program's
/// name, then the moves of a `replay`, then a session from the reader. It replays the session by these moves, runs it by
/// executors in threads for `run` or, for `plain`, takes it whole, and writes the text of the report to `out`. A transport
/// that fails, an abort, and a growth that is refused in a move do not end the replay or the run: the report tells what
/// became of each channel.
///
/// The status is 0 where every channel is drained, 1 where the report was printed and some channel is not drained. Else
/// one line on `err` says why: 2 where the command line or its moves were not read or name what is not there, 3 where
/// the session was refused or a read failed, 4 where no thread could be started for a run, it ran out of memory or `out`
/// failed. Where the line or its moves were not read, nothing was taken from the reader; unless `out` failed, nothing was
/// written to it. An `err` that fails changes no status, and holds a beginning of the line.
///
/// No contract sees that a read or a write fails, that a thread is not started, that memory runs out, or what a writer
/// would have taken. So these bodies meet this one too: one that answers `out of memory` once the line was read, before
/// it has taken more than a session text may have; one that answers the usage line at once, as where `clap` runs out of
/// memory; one whose report tells that memory ran out for a channel; one that answers `input refused` once the line and
/// its moves were read, likewise; one that answers `run refused: 2 Spawn` once a run is requested and a session was
/// taken; one whose run has queues of the other kind; one that answers `output refused` once there is a report, whatever
/// it then wrote to `out`; and one that tells a part of the line, or nothing. That these come only where they should is
/// tested, but for a thread that is not started. A run may wait for ever, and then answers nothing.
#[tactic(auto, using(crate::proofs::ProgramAnswers::open_is_not_plain, crate::proofs::ProgramAnswers::unread_is_usage))]
pub fn run_tool<T: Threads + Wait + Sync, R: Read, W: Write, E: Write>(
    rt: &T,
    alloc: Global,
    args: &[String],
    reader: &mut R,
    out: &mut W,
    err: &mut E,
) -> u8
    ensures drained { result ≡ 0 → HasPrinted true (request_of (map string_bytes args.now))
        (R.remaining reader.old) (R.remaining reader.new) (W.contents out.old) (W.contents out.new) }
    ensures not_drained { result ≡ 1 → HasPrinted false (request_of (map string_bytes args.now))
        (R.remaining reader.old) (R.remaining reader.new) (W.contents out.old) (W.contents out.new) }
    ensures whole { result ≡ 1 → request_of (map string_bytes args.now) ≢ Some Plain }
    ensures silent { (result ≡ 0) ⊎ (result ≡ 1) → Keeps (E.contents err.old) (E.contents err.new) }

    // Each other status is that of a failure which the line, the moves and what was read explain, and `err` got a
    // beginning of the line of that failure.
    ensures failed { 2 ≤ result → HasFailed result (request_of (map string_bytes args.now))
        (R.remaining reader.old) (R.remaining reader.new) (W.contents out.old) (W.contents out.new)
        (E.contents err.old) (E.contents err.new) }

    // A line that is not read has no other status, whatever memory there is.
    ensures unread { request_of (map string_bytes args.now) ≡ None → result ≡ 2 }

    // Whatever the status, one byte more than a session text may have is all that is taken.
    ensures at_most { TakesAtMost MAX_INPUT (R.remaining reader.old) (R.remaining reader.new) }
{
    match print_requested(rt, alloc, args, reader, out) {
        Ok(true) => 0,
        Ok(false) => 1,
        Err(failure) => say_last(failure, err),
    }
}

/// How the program ends where its arguments could not be taken from the system, by the error of that: with status 4 where
/// it ran out of memory, and else, as where one is not UTF-8, with status 2. The line of that goes to `err`, which
/// may fail as that of `run_tool` may.
pub fn refuse_args<E: Write>(error: &io::Error, err: &mut E) -> u8
    ensures status { result ≡ status_of (failure_of_args (error_kind error.now)) }
    ensures said { AppendsPrefixOf (failure_line (failure_of_args (error_kind error.now)))
        (E.contents err.old) (E.contents err.new) }
{
    say_last(Failure::of_args(error), err)
}
