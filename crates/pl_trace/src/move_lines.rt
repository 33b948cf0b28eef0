//! A trace as text: some lines for each move, and some for the end.

use crate::envelope_texts::{add_envelope, add_item, add_lane};
use crate::names::Names;
use crate::tracing::{Gained, Step, Told, Tracer};
use pl_event::Envelope;
use pl_net::Station;
use pl_replay::Hindrance;
use pl_text::{MoveTerm, add_event, add_hex, stands_text};
use pl_world::Move;
use std::io;
use std::io::Write as _;

/// How many items of one queue or backlog the end of a trace names.
const MAX_NAMED: usize = 16;

/// Adds the lines of a move.
pub(crate) fn add_told(text: &mut Vec<u8>, names: &Names, told: &Told) -> io::Result<()> {
    write!(text, "{} {}", told.number, MoveTerm::new(told.step))?;
    if let Some(hindrance) = told.hindrance {
        text.extend_from_slice(b" passed over: ")?;
        add_hindrance(text, told.step, hindrance)?;
        return Ok(text.push(b'\n')?);
    }
    text.push(b'\n')?;
    add_details(text, names, told, "  ")
}

/// Adds what a move did, each line after an indent.
pub(crate) fn add_details(
    text: &mut Vec<u8>,
    names: &Names,
    told: &Told,
    indent: &str,
) -> io::Result<()> {
    for step in &told.steps {
        write!(text, "{indent}")?;
        add_step(text, names, step)?;
    }
    if let Some(handed) = &told.handed {
        write!(text, "{indent}")?;
        add_envelope(text, names, &handed.envelope)?;
        writeln!(text, " goes to the queue of {}", handed.target)?;
    }
    match &told.gained {
        Some(gained) => add_gained(text, gained, indent),
        None => Ok(()),
    }
}

/// Adds why a move was passed over.
pub(crate) fn add_hindrance(
    text: &mut Vec<u8>,
    step: Move,
    hindrance: Hindrance,
) -> io::Result<()> {
    let number = match step {
        Move::Read(number) | Move::Task(number) | Move::Hand(number) | Move::Out(number) => number,
    };
    match hindrance {
        Hindrance::NoReadStep => write!(text, "no read step of channel {number} is left"),
        Hindrance::BurstHeld => write!(text, "the next burst of channel {number} is held"),
        Hindrance::EmptyQueue => write!(text, "the queue of executor {number} is empty"),
        Hindrance::EmptyBacklog => write!(text, "nothing waits at executor {number}"),
        Hindrance::FullQueues => write!(text, "what waits at executor {number} is for full queues"),
        Hindrance::NothingFlushed => write!(text, "no flushed byte of channel {number} waits"),
        Hindrance::HeadFailed => write!(text, "the head of channel {number} has failed"),
    }
}

/// Adds a line for what an executor had in hand.
fn add_step(text: &mut Vec<u8>, names: &Names, step: &Step) -> io::Result<()> {
    if step.me != step.target {
        add_envelope(text, names, &step.envelope)?;
        return writeln!(text, " waits at {} for {}", step.me, step.target);
    }
    add_lane(text, names, step.envelope.lane)?;
    write!(text, " takes ")?;
    add_item(text, &step.envelope)?;
    Ok(text.push(b'\n')?)
}

/// Adds lines for what came to the ends of a channel.
fn add_gained(text: &mut Vec<u8>, gained: &Gained, indent: &str) -> io::Result<()> {
    let channel = gained.channel;
    for event in &gained.events {
        write!(text, "{indent}{channel}/tail records ")?;
        add_event(text, event)?;
        text.push(b'\n')?;
    }
    if !gained.bytes.is_empty() {
        let count = gained.bytes.len();
        write!(text, "{indent}{channel}/transport accepts {count} ")?;
        add_hex(text, gained.bytes.as_slice())?;
        text.push(b'\n')?;
    }
    for (number, outcome) in &gained.settled {
        writeln!(text, "{indent}{channel}/write {number} {outcome:?}")?;
    }
    match gained.stands {
        Some(stands) => writeln!(text, "{indent}channel {channel} {}", stands_text(stands)),
        None => Ok(()),
    }
}

/// Adds the lines of the end: how each channel stands, and what is still queued or waits, and where.
pub(crate) fn add_end(text: &mut Vec<u8>, names: &Names, tracer: &Tracer) -> io::Result<()> {
    writeln!(text, "end, {} passed over", tracer.passed_over())?;
    for channel in 0..names.channels() {
        let stands = tracer.stands(channel);
        writeln!(text, "  channel {channel} {}", stands_text(stands))?;
    }
    let executors = tracer.executors();
    for executor in 0..executors {
        if let Some(station) = tracer.net().station(executor as usize) {
            add_queue(text, names, executor, station)?;
            for target in 0..executors {
                add_backlog(text, names, executor, station, target)?;
            }
        }
    }
    Ok(())
}

/// Adds lines for what is queued at an executor.
fn add_queue(
    text: &mut Vec<u8>,
    names: &Names,
    executor: u16,
    station: &Station,
) -> io::Result<()> {
    let queue = station.queue();
    for envelope in queue.iter().take(MAX_NAMED) {
        write!(text, "  queue of {executor}: ")?;
        add_line(text, names, envelope)?;
    }
    if queue.len() <= MAX_NAMED {
        return Ok(());
    }
    let more = queue.len() - MAX_NAMED;
    writeln!(text, "  queue of {executor}: {more} more")
}

/// Adds lines for what waits at an executor for another one.
fn add_backlog(
    text: &mut Vec<u8>,
    names: &Names,
    executor: u16,
    station: &Station,
    target: u16,
) -> io::Result<()> {
    let count = station.backlog_len(target as usize);
    for place in 0..count.min(MAX_NAMED) {
        if let Some(envelope) = station.backlog_at(target as usize, place) {
            write!(text, "  backlog of {executor} for {target}: ")?;
            add_line(text, names, envelope)?;
        }
    }
    if count <= MAX_NAMED {
        return Ok(());
    }
    let more = count - MAX_NAMED;
    writeln!(text, "  backlog of {executor} for {target}: {more} more")
}

/// Adds an item, and ends the line.
fn add_line(text: &mut Vec<u8>, names: &Names, envelope: &Envelope) -> io::Result<()> {
    add_envelope(text, names, envelope)?;
    Ok(text.push(b'\n')?)
}
