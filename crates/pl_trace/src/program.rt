//! The program over a reader and two writers.

ghost use Rattle.std.specs.Prelude.{◌≤◌};

mod command_line;
mod failure;
mod input;

use crate::checking::{Checked, check};
use crate::move_lines::{add_end, add_told};
use crate::names::Names;
use crate::picture::{Picture, Rows};
use crate::shown::beginning;
use crate::tracing::{Told, Tracer};
use command_line::{Request, Source, request_of};
use failure::{Failure, Refusal};
use input::{read_session_text, read_session_with_names};
use pl_schedule::{Order, Scheduled, Unread, read_script, schedule};
use pl_text::{MoveTerm, MovesFault, moves_as_text, stands_text};
use pl_world::{Move, ReplayFault, Session, Stands};
use std::alloc::Global;
use std::fmt::Write as _;
use std::io::{BufWriter, Read, Write};
use std::rt::Files;
use std::{fs, io};

/// The program (`docs/FORMATS.md`, "Trace"): reads the command line `args`, of which the first is the program's name,
/// then the moves, then a session from the reader, and writes what is requested to `out`. It answers the status of the
/// process; where it is 2 or more, `err` says why.
pub fn run_trace<F: Files + Alloc, R: Read, W: Write, E: Write>(
    rt: &F,
    alloc: Global,
    args: &[String],
    reader: &mut R,
    out: &mut W,
    err: &mut E,
) -> u8
    ensures { result ≤ 4 }
{
    let served = match request_of(alloc, args) {
        Ok(request) => serve(rt, alloc, request, reader, out, err),
        Err(error) if error.use_stderr() => {
            let _ = write!(err, "{error}");
            return Failure::of_line(&error).status();
        }
        Err(help) => say_help(&help, out),
    };
    match served {
        Ok(true) => 0,
        Ok(false) => 1,
        Err(refusal) => {
            let _ = write!(err, "{refusal}");
            refusal.failure.status()
        }
    }
}

/// How the program ends where its arguments could not be taken from the system, by the error of that.
pub fn refuse_args<E: Write>(error: &io::Error, err: &mut E) -> u8
    ensures { result ≤ 4 }
{
    let failure = Failure::of_args(error);
    let _ = writeln!(err, "{failure}");
    failure.status()
}

/// Writes the help that the command line asks for.
fn say_help<W: Write>(help: &clap::Error, out: &mut W) -> Result<bool, Refusal> {
    write!(out, "{help}")?;
    Ok(true)
}

/// Serves a request. It says whether every channel is drained, or the session was read.
fn serve<F: Files + Alloc, R: Read, W: Write, E: Write>(
    rt: &F,
    alloc: Global,
    request: Request<'_>,
    reader: &mut R,
    out: &mut W,
    err: &mut E,
) -> Result<bool, Refusal> {
    match request {
        Request::Moves(source) => {
            let moves = moves_of(rt, alloc, source)?;
            tell_moves(alloc, read_shown(alloc, reader, moves)?, out)
        }
        Request::Picture(source) => {
            let moves = moves_of(rt, alloc, source)?;
            draw(alloc, read_shown(alloc, reader, moves)?, out)
        }
        Request::Schedule(order) => make_schedule(alloc, reader, order, out, err),
        Request::Check => tell_check(alloc, reader, out, err),
    }
}

/// The moves of a source.
fn moves_of<F: Files + Alloc>(
    rt: &F,
    alloc: Global,
    source: Source<'_>,
) -> Result<Vec<Move>, Refusal> {
    match source {
        Source::Text(text) => moves_in(alloc, text),
        Source::File(path) => match fs::read_to_string(rt, path) {
            Ok(text) => moves_in(alloc, text.as_str()),
            Err(error) => {
                let place = String::from_str(alloc, path)?;
                Err(Refusal::at(Failure::of_read(&error), place))
            }
        },
    }
}

/// The moves of a text.
fn moves_in(alloc: Global, text: &str) -> Result<Vec<Move>, Refusal> {
    let Unread { fault, line, term } = match read_script(alloc, text) {
        Ok(moves) => return Ok(moves),
        Err(unread) => unread,
    };
    if fault == MovesFault::Memory {
        return Err(Refusal::from(Failure::Memory));
    }
    let term = beginning(alloc, term.as_str())?;
    let place = format!(in alloc; "line {line}: {}", term.as_str())?;
    Err(Refusal::at(Failure::Moves(fault), place))
}

/// A session, the names of its handlers, and the moves to be shown in it.
type Shown = (Session, Names, Vec<Move>);

/// Reads the session of moves, each of which names what it has.
fn read_shown<R: Read>(alloc: Global, reader: &mut R, moves: Vec<Move>) -> Result<Shown, Refusal> {
    let (session, names) = read_session_with_names(alloc, reader)?;
    all_there(alloc, &session, moves.as_slice())?;
    Ok((session, names, moves))
}

/// Writes what moves do as text.
fn tell_moves<W: Write>(alloc: Global, shown: Shown, out: &mut W) -> Result<bool, Refusal> {
    let (session, names, moves) = shown;
    let mut tracer = Tracer::new(alloc, session)?;
    let mut out = BufWriter::new(alloc, out)?;
    let mut text = Vec::new(alloc);
    for step in &moves {
        let told = tracer.make(*step)?;
        add_lines(&mut text, &names, told)?;
        out.write_all(text.as_slice())?;
        text.clear();
    }
    add_end(&mut text, &names, &tracer)?;
    out.write_all(text.as_slice())?;
    out.flush()?;
    Ok(tracer.net().drained())
}

/// Adds the lines of a move, of which no more is told.
fn add_lines(text: &mut Vec<u8>, names: &Names, told: Told) -> io::Result<()> {
    let added = add_told(text, names, &told);
    drop(told);
    added
}

/// Writes what moves do as a picture.
fn draw<W: Write>(alloc: Global, shown: Shown, out: &mut W) -> Result<bool, Refusal> {
    let (session, names, moves) = shown;
    let rows = Rows::new(alloc, &session, &names)?;
    let mut picture = Picture::new(alloc, &names, rows, moves.len())?;
    let mut tracer = Tracer::new(alloc, session)?;
    let mut out = BufWriter::new(alloc, out)?;
    let mut text = Vec::new(alloc);
    picture.add_frame(&mut text)?;
    for step in &moves {
        let told = tracer.make(*step)?;
        add_drawn(&mut text, &mut picture, told)?;
        out.write_all(text.as_slice())?;
        text.clear();
    }
    picture.add_end(&mut text, &tracer)?;
    out.write_all(text.as_slice())?;
    out.flush()?;
    Ok(tracer.net().drained())
}

/// Draws a move, of which no more is told.
fn add_drawn(text: &mut Vec<u8>, picture: &mut Picture<'_>, told: Told) -> io::Result<()> {
    let added = picture.add_told(text, &told);
    drop(told);
    added
}

/// Each move names what a session has.
fn all_there(alloc: Global, session: &Session, moves: &[Move]) -> Result<(), Refusal> {
    let channels = session.world.channels().len();
    let executors = session.world.executors();
    for (index, step) in moves.iter().enumerate() {
        let is_there = match step {
            Move::Read(channel) | Move::Out(channel) => (*channel as usize) < channels,
            Move::Task(executor) | Move::Hand(executor) => *executor < executors,
        };
        if !is_there {
            let number = index.saturating_add(1);
            let place = format!(in alloc; "move {number}: {}", MoveTerm::new(*step))?;
            return Err(Refusal::at(Failure::Replay(ReplayFault::NoSuch), place));
        }
    }
    Ok(())
}

/// Writes a schedule, and says on `err` what it comes to.
fn make_schedule<R: Read, W: Write, E: Write>(
    alloc: Global,
    reader: &mut R,
    order: Order,
    out: &mut W,
    err: &mut E,
) -> Result<bool, Refusal> {
    let (session, _names) = read_session_with_names(alloc, reader)?;
    let Scheduled {
        moves,
        is_over,
        report,
    } = schedule(alloc, session, order)?;
    let text = moves_as_text(alloc, moves.as_slice())?;
    writeln!(out, "{}", text.as_str())?;
    let mut said = String::new(alloc);
    let mut are_drained = true;
    for (number, channel) in report.channels.as_slice().iter().enumerate() {
        writeln!(said, "channel {number} {}", stands_text(channel.stands))?;
        are_drained = are_drained && channel.stands == Stands::Drained;
    }
    let end = if is_over {
        "no move is enabled any more"
    } else {
        "more moves are enabled"
    };
    writeln!(said, "{} moves, {end}", moves.len())?;
    let _ = err.write_all(said.as_bytes());
    Ok(are_drained)
}

/// Writes what a check has found.
fn tell_check<R: Read, W: Write, E: Write>(
    alloc: Global,
    reader: &mut R,
    out: &mut W,
    err: &mut E,
) -> Result<bool, Refusal> {
    let text = read_session_text(alloc, reader)?;
    let Checked {
        session,
        place,
        warnings,
    } = check(alloc, text.as_str())?;
    let mut said = String::new(alloc);
    for warning in &warnings {
        writeln!(said, "warning: {}", warning.as_str())?;
    }
    match session {
        Ok(_) => {
            write!(out, "session read\n{}", said.as_str())?;
            Ok(true)
        }
        Err(fault) => {
            let _ = err.write_all(said.as_bytes());
            Err(Refusal {
                failure: Failure::from(fault),
                place,
            })
        }
    }
}
