//! Where the rows are: of tails, executors and transports.

use super::columns::{Columns, LEFT};
use super::marks::{Point, add_label};
use crate::names::Names;
use pl_event::Lane;
use pl_world::{Move, Session};
use std::alloc::{AllocError, Global};
use std::fmt::Write as _;
use std::io;
use std::io::Write as _;

/// Half the height of a move's box.
pub(super) const HALF: u64 = 9;

/// How high the row of a tail or of a transport is.
const EDGE: u64 = 20;

/// How high the two rows of an executor are.
const ROOM: u64 = 62;

/// What is free at the right, and at the top.
const RIGHT: u64 = 130;

const TOP: u64 = 24;

/// How many bytes name what an executor runs, about.
const MAX_RUNS: usize = 20;

const STYLE: &str = "<style>
text{font:10px sans-serif;fill:#333}.k{font-weight:bold}.g{fill:#888;font-size:9px}
.n,.w{text-anchor:middle}.n{fill:#888;font-size:9px}.w{font-size:10px}.l{font-size:8px}.c{font-size:8px}
.s{font-size:10px}.r{font-size:10px;fill:#c00;font-weight:bold}
.row{stroke:#ddd}.edge{stroke:#bbb;stroke-dasharray:4 3}
rect{stroke:#555;stroke-width:.7}.z{fill:#fff;stroke:none}.R{fill:#cfe3ff}.T{fill:#d7f2cf}.H{fill:#ffe9bf}.O{fill:#e6d6f7}
.p{fill:none;stroke:#bbb;stroke-dasharray:2 2}.x{fill:#ffd0d0;stroke:#c00}
line.h{stroke:#c98a00;marker-end:url(#a)}line.q{stroke:#3a8f2e;marker-end:url(#a)}line.t{stroke:#999}
.i{fill:#ffb300;stroke:#7a5600}.e{fill:#4a86d8}.b{fill:#8a5cc9}.f{fill:#e02020;stroke:#800}
</style>
<defs><marker id=\"a\" viewBox=\"0 0 8 8\" refX=\"8\" refY=\"4\" markerWidth=\"6\" markerHeight=\"6\" orient=\"auto\"><path d=\"M0 0L8 4L0 8z\" fill=\"#777\"/></marker></defs>
";

/// The rows, and what executors run.
#[derive(Debug, Drop)]
pub(crate) struct Rows {
    /// By channel, the hop of its tail.
    tails: Vec<u16>,
    /// By channel, the executor of its head.
    homes: Vec<u16>,
    /// By executor, the names of what it runs.
    runs: Vec<String>,
}

impl Rows {
    /// The rows of a session.
    pub(crate) fn new(alloc: Global, session: &Session, names: &Names) -> Result<Rows, AllocError> {
        let mut rows = Rows {
            tails: Vec::new(alloc),
            homes: Vec::new(alloc),
            runs: Vec::new(alloc),
        };
        for _ in 0..session.world.executors() {
            rows.runs.push(String::new(alloc))?;
        }
        for (channel, recorded) in (0..u16::MAX).zip(session.world.channels()) {
            let mut home = 0;
            for (hop, name) in (0..u16::MAX).zip(names.of_channel(channel)) {
                if let Some(executor) = recorded.pipeline.executor_of(hop) {
                    home = executor;
                    rows.add_run(executor, channel, name.as_str())?;
                }
            }
            rows.tails.push(recorded.pipeline.inbound())?;
            rows.homes.push(home)?;
        }
        Ok(rows)
    }

    /// How many executors there are.
    pub(super) fn executors(&self) -> usize {
        self.runs.len()
    }

    /// The executor that makes a move.
    pub(super) fn executor_of(&self, step: Move) -> u16 {
        match step {
            Move::Task(executor) | Move::Hand(executor) => executor,
            Move::Read(channel) | Move::Out(channel) => {
                self.homes.get(channel as usize).copied().unwrap_or(0)
            }
        }
    }

    /// Whether a lane enters the tail of its channel.
    pub(super) fn enters_tail(&self, lane: Lane) -> bool {
        self.tails.get(lane.channel as usize).copied() == Some(lane.hop)
    }

    /// The row of a channel's tail.
    pub(super) fn tail(&self, channel: u16) -> u64 {
        TOP.saturating_add(EDGE.saturating_mul(u64::from(channel)))
    }

    /// The row of an executor's queue.
    pub(super) fn queue(&self, executor: u16) -> u64 {
        self.top_of(executor as u64).saturating_add(18)
    }

    /// The row of what an executor does.
    pub(super) fn executor(&self, executor: u16) -> u64 {
        self.top_of(executor as u64).saturating_add(46)
    }

    /// The row of a channel's transport.
    pub(super) fn transport(&self, channel: u16) -> u64 {
        self.transports()
            .saturating_add(EDGE.saturating_mul(u64::from(channel)))
    }

    /// Where the numbers of moves stand.
    pub(super) fn axis(&self) -> u64 {
        let channels = self.homes.len() as u64;
        self.transports()
            .saturating_add(EDGE.saturating_mul(channels))
            .saturating_add(6)
    }

    /// Adds what does not move: the size, the style, and each row with its label.
    pub(super) fn add_frame(&self, text: &mut Vec<u8>, columns: &Columns) -> io::Result<()> {
        let width = columns.end().saturating_add(RIGHT);
        let height = self.axis().saturating_add(12);
        writeln!(
            text,
            "<svg xmlns=\"http://www.w3.org/2000/svg\" width=\"{width}\" height=\"{height}\" viewBox=\"0 0 {width} {height}\">"
        )?;
        text.extend_from_slice(STYLE.as_bytes())?;
        writeln!(
            text,
            "<rect class=\"z\" width=\"{width}\" height=\"{height}\"/>"
        )?;
        for (channel, _) in (0..u16::MAX).zip(&self.homes) {
            let (tail, transport) = (self.tail(channel), self.transport(channel));
            add_row(text, "edge", "tail of channel", channel, tail, columns)?;
            add_row(
                text,
                "edge",
                "transport of channel",
                channel,
                transport,
                columns,
            )?;
        }
        for (executor, runs) in (0..u16::MAX).zip(&self.runs) {
            let (queue, row) = (self.queue(executor), self.executor(executor));
            add_row(text, "row", "queue of", executor, queue, columns)?;
            add_row(text, "row", "executor", executor, row, columns)?;
            let below = Point {
                x: 8,
                y: row.saturating_add(15),
            };
            add_label(text, "g", below, runs.as_bytes())?;
        }
        Ok(())
    }

    /// Where the rows of an executor begin.
    fn top_of(&self, executor: u64) -> u64 {
        let channels = self.homes.len() as u64;
        TOP.saturating_add(EDGE.saturating_mul(channels))
            .saturating_add(ROOM.saturating_mul(executor))
    }

    /// The row of the first transport.
    fn transports(&self) -> u64 {
        self.top_of(self.runs.len() as u64).saturating_add(14)
    }

    /// Adds the name of what an executor runs, after that of its channel.
    fn add_run(&mut self, executor: u16, channel: u16, name: &str) -> Result<(), AllocError> {
        let Some(runs) = self.runs.get_mut(executor as usize) else {
            return Ok(());
        };
        if MAX_RUNS < runs.len() {
            if !runs.as_str().ends_with(" ..") {
                runs.push_str(" ..")?;
            }
            return Ok(());
        }
        if !runs.is_empty() {
            runs.push(' ')?;
        }
        write!(runs, "{channel}/{name}")
    }
}

/// Adds a row's line and label.
fn add_row(
    text: &mut Vec<u8>,
    class: &str,
    what: &str,
    number: u16,
    y: u64,
    columns: &Columns,
) -> io::Result<()> {
    let end = columns.end();
    writeln!(
        text,
        "<line class=\"{class}\" x1=\"{LEFT}\" y1=\"{y}\" x2=\"{end}\" y2=\"{y}\"/>"
    )?;
    let y = y.saturating_add(4);
    writeln!(
        text,
        "<text class=\"k\" x=\"8\" y=\"{y}\">{what} {number}</text>"
    )
}
