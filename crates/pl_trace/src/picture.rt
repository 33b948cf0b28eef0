//! A trace as a picture: an SVG, in text. Moves go to the right; from top to bottom there are the tails, of each executor its
//! queue and what it does, and the transports.

mod columns;
mod marks;
mod rows;

use crate::envelope_texts::add_number;
use crate::move_lines::{add_details, add_hindrance};
use crate::names::Names;
use crate::tracing::{Gained, HandOver, Step, Told, Tracer};
use columns::Columns;
use marks::{Point, add_escaped, add_label, arrow, mark};
use pl_event::{Envelope, Item, Outcome};
use pl_net::Station;
use pl_text::{MoveTerm, stands_text};
use pl_world::{Move, Stands};
use rows::HALF;
pub(crate) use rows::Rows;
use std::alloc::{AllocError, Global};
use std::collections::VecDeque;
use std::io;
use std::io::Write as _;

/// How many letters of a handler's name label an item.
const MAX_LABEL: usize = 7;

/// A picture that is drawn move by move.
#[derive(Drop)]
pub(crate) struct Picture<'a> {
    alloc: Global,
    names: &'a Names,
    rows: Rows,
    columns: Columns,
    /// By executor, the numbers of the moves that have handed over what is in its queue.
    handed: Vec<VecDeque<usize>>,
}

impl<'a> Picture<'a> {
    /// One for so many moves, of which none is drawn.
    pub(crate) fn new(
        alloc: Global,
        names: &'a Names,
        rows: Rows,
        moves: usize,
    ) -> Result<Self, AllocError> {
        let mut handed = Vec::new(alloc);
        for _ in 0..rows.executors() {
            handed.push(VecDeque::new(alloc))?;
        }
        Ok(Picture {
            alloc,
            names,
            rows,
            columns: Columns::new(moves),
            handed,
        })
    }

    /// Draws what does not move.
    pub(crate) fn add_frame(&self, text: &mut Vec<u8>) -> io::Result<()> {
        self.rows.add_frame(text, &self.columns)
    }

    /// Draws a move.
    pub(crate) fn add_told(&mut self, text: &mut Vec<u8>, told: &Told) -> io::Result<()> {
        let x = self.columns.middle(told.number);
        let executor = self.rows.executor_of(told.step);
        let y = self.rows.executor(executor);
        if self.columns.is_numbered(told.number) {
            let axis = self.rows.axis();
            writeln!(
                text,
                "<text class=\"n\" x=\"{x}\" y=\"{axis}\">{}</text>",
                told.number
            )?;
        }
        if let (Move::Task(_), None) = (told.step, told.hindrance) {
            self.add_task(text, executor, Point { x, y })?;
        }
        if let Some(handed) = &told.handed {
            self.add_hand_over(text, told.number, handed, Point { x, y })?;
        }
        if let Some(gained) = &told.gained {
            self.add_gained(text, gained, Point { x, y })?;
        }
        for step in &told.steps {
            self.add_failed_tail(text, step, Point { x, y })?;
        }
        self.add_box(text, told, Point { x, y })
    }

    /// Draws how each channel stands, and what is left.
    pub(crate) fn add_end(&self, text: &mut Vec<u8>, tracer: &Tracer) -> io::Result<()> {
        for channel in 0..self.names.channels() {
            self.add_stands(text, channel, tracer.stands(channel))?;
        }
        let executors = tracer.executors();
        for executor in 0..executors {
            let Some(station) = tracer.net().station(executor as usize) else {
                continue;
            };
            let (queued, waiting) = (station.queue().len(), backlog_len(station, executors));
            self.add_left(text, self.rows.queue(executor), queued, "left")?;
            self.add_left(text, self.rows.executor(executor), waiting, "wait")?;
        }
        text.extend_from_slice(b"</svg>\n")?;
        Ok(())
    }

    /// Draws the way of a task from where it was handed over.
    fn add_task(&mut self, text: &mut Vec<u8>, executor: u16, at: Point) -> io::Result<()> {
        let from = match self.handed.get_mut(executor as usize) {
            Some(moves) => moves.pop_front(),
            None => None,
        };
        let Some(number) = from else {
            return Ok(());
        };
        let queued = Point {
            x: self.columns.middle(number),
            y: self.rows.queue(executor),
        };
        arrow(text, "q", queued, at.above(HALF))
    }

    /// Draws what was handed over, in the queue of its target.
    fn add_hand_over(
        &mut self,
        text: &mut Vec<u8>,
        number: usize,
        handed: &HandOver,
        at: Point,
    ) -> io::Result<()> {
        let queued = Point {
            x: at.x,
            y: self.rows.queue(handed.target),
        };
        let class = if is_failure(&handed.envelope) {
            "f"
        } else {
            "i"
        };
        arrow(text, "h", at, queued)?;
        mark(text, class, queued, self.columns.radius())?;
        if self.columns.has_labels() {
            self.add_short(text, &handed.envelope, queued.above(5).right(4))?;
        }
        if let Some(moves) = self.handed.get_mut(handed.target as usize) {
            moves.push_back(number)?;
        }
        Ok(())
    }

    /// Labels an item with its lane and number.
    fn add_short(&self, text: &mut Vec<u8>, envelope: &Envelope, at: Point) -> io::Result<()> {
        let mut label = Vec::new(self.alloc);
        for letter in self.names.of(envelope.lane).chars().take(MAX_LABEL) {
            write!(label, "{letter}")?;
        }
        add_number(&mut label, envelope)?;
        add_label(text, "l", at, label.as_slice())
    }

    /// Draws what came to the ends of a channel.
    fn add_gained(&self, text: &mut Vec<u8>, gained: &Gained, at: Point) -> io::Result<()> {
        let tail = self.tail(gained.channel, at);
        let transport = Point {
            x: at.x,
            y: self.rows.transport(gained.channel),
        };
        if !gained.events.is_empty() {
            self.add_end_mark(text, "e", at.above(HALF), tail)?;
            self.add_count(text, gained.events.len(), tail)?;
        }
        if !gained.bytes.is_empty() {
            self.add_end_mark(text, "b", at.below(HALF), transport)?;
            self.add_count(text, gained.bytes.len(), transport)?;
        }
        if has_failed(gained) {
            self.add_end_mark(text, "f", at.below(HALF), transport)?;
        }
        Ok(())
    }

    /// Draws a failure that came to the tail.
    fn add_failed_tail(&self, text: &mut Vec<u8>, step: &Step, at: Point) -> io::Result<()> {
        let lane = step.envelope.lane;
        if is_failure(&step.envelope) && self.rows.enters_tail(lane) {
            self.add_end_mark(text, "f", at.above(HALF), self.tail(lane.channel, at))?;
        }
        Ok(())
    }

    /// Draws a mark at the end of a channel, and the way there.
    fn add_end_mark(
        &self,
        text: &mut Vec<u8>,
        class: &str,
        from: Point,
        to: Point,
    ) -> io::Result<()> {
        arrow(text, "t", from, to)?;
        mark(text, class, to, self.columns.radius())
    }

    /// Where the tail of a channel is, in a column.
    fn tail(&self, channel: u16, at: Point) -> Point {
        Point {
            x: at.x,
            y: self.rows.tail(channel),
        }
    }

    /// Draws how many events or bytes came.
    fn add_count(&self, text: &mut Vec<u8>, count: usize, at: Point) -> io::Result<()> {
        if !self.columns.has_labels() {
            return Ok(());
        }
        let Point { x, y } = at.below(3).right(6);
        writeln!(text, "<text class=\"c\" x=\"{x}\" y=\"{y}\">{count}</text>")
    }

    /// Draws the box of a move, with what it did as its title.
    fn add_box(&self, text: &mut Vec<u8>, told: &Told, at: Point) -> io::Result<()> {
        let class = class_of(told);
        let width = self.columns.box_width();
        let left = at.x.saturating_sub(width / 2);
        let top = at.y.saturating_sub(HALF);
        let height = HALF.saturating_mul(2);
        write!(
            text,
            "<g><rect class=\"{class}\" x=\"{left}\" y=\"{top}\" width=\"{width}\" height=\"{height}\"/>"
        )?;
        if self.columns.has_words() {
            let Point { x, y } = at.below(4);
            let word = MoveTerm::new(told.step);
            write!(text, "<text class=\"w\" x=\"{x}\" y=\"{y}\">{word}</text>")?;
        }
        if self.columns.has_titles() {
            self.add_title(text, told)?;
        }
        text.extend_from_slice(b"</g>\n")?;
        Ok(())
    }

    /// Adds what a move did as a title, which a reader sees where the pointer is.
    fn add_title(&self, text: &mut Vec<u8>, told: &Told) -> io::Result<()> {
        let mut title = Vec::new(self.alloc);
        write!(title, "{} {}", told.number, MoveTerm::new(told.step))?;
        match told.hindrance {
            Some(hindrance) => {
                title.extend_from_slice(b": ")?;
                add_hindrance(&mut title, told.step, hindrance)?;
            }
            None => {
                title.push(b'\n')?;
                add_details(&mut title, self.names, told, "")?;
            }
        }
        text.extend_from_slice(b"<title>")?;
        add_escaped(text, title.as_slice())?;
        text.extend_from_slice(b"</title>")?;
        Ok(())
    }

    /// Draws how a channel stands, at its tail and at its transport.
    fn add_stands(&self, text: &mut Vec<u8>, channel: u16, stands: Stands) -> io::Result<()> {
        self.add_stands_at(text, self.rows.tail(channel), stands)?;
        self.add_stands_at(text, self.rows.transport(channel), stands)
    }

    /// Draws it behind a row.
    fn add_stands_at(&self, text: &mut Vec<u8>, row: u64, stands: Stands) -> io::Result<()> {
        let class = if matches!(stands, Stands::Failed(_)) {
            "r"
        } else {
            "s"
        };
        let at = Point {
            x: self.columns.end(),
            y: row.saturating_add(4),
        };
        add_label(text, class, at, stands_text(stands).as_bytes())
    }

    /// Draws how many items are left in a row, where some are.
    fn add_left(&self, text: &mut Vec<u8>, y: u64, count: usize, word: &str) -> io::Result<()> {
        if count == 0 {
            return Ok(());
        }
        let x = self.columns.end();
        let y = y.saturating_add(4);
        writeln!(
            text,
            "<text class=\"s\" x=\"{x}\" y=\"{y}\">{count} {word}</text>"
        )
    }
}

/// How many items wait in a backlog, where there are so many executors.
fn backlog_len(station: &Station, executors: u16) -> usize {
    let mut len = 0usize;
    for target in 0..executors {
        len = len.saturating_add(station.backlog_len(target as usize));
    }
    len
}

/// Whether an item is a failure.
fn is_failure(envelope: &Envelope) -> bool {
    matches!(envelope.item, Item::Fail(_))
}

/// Whether a channel has failed, or a write was settled otherwise than by success.
fn has_failed(gained: &Gained) -> bool {
    let mut settled = gained.settled.as_slice().iter();
    matches!(gained.stands, Some(Stands::Failed(_)))
        || settled.any(|(_, outcome)| *outcome != Outcome::Success)
}

/// The class of a move's box.
fn class_of(told: &Told) -> &'static str {
    if told.hindrance.is_some() {
        return "p";
    }
    let mut steps = told.steps.as_slice().iter();
    if steps.any(|step| is_failure(&step.envelope)) {
        return "x";
    }
    match told.step {
        Move::Read(_) => "R",
        Move::Task(_) => "T",
        Move::Hand(_) => "H",
        Move::Out(_) => "O",
    }
}
