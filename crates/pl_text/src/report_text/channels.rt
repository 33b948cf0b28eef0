//! The text of one channel's report.

ghost use Rattle.std.specs.Prelude.{◌≡◌, ◌++◌, OnOk, codes, decimal};
ghost use Rattle.std.specs.List.{flat_map};
ghost use Rattle.pl_text.specs.ReportTexts.{channel_text, event_line, outcome_text, sent_text, stands_text, write_lines};

use super::events::{add_event, add_hex, add_number};
use pl_event::{Cause, Event, Outcome};
use pl_world::{ChannelReport, Stands};
use std::alloc::AllocError;

/// What became of a channel, in words (`docs/FORMATS.md`, "Report").
pub fn stands_text(stands: Stands) -> &'static str
    ensures { result.now ≡ stands_text stands }
{
    match stands {
        Stands::Drained => "drained",
        Stands::Open => "open",
        Stands::Failed(Cause::Memory) => "failed Memory",
        Stands::Failed(Cause::Transport) => "failed Transport",
        Stands::Failed(Cause::Aborted) => "failed Aborted",
        Stands::Failed(Cause::Refused) => "failed Refused",
    }
}

/// The outcome of a write, or `Open` where there is none yet, between a space and the line's end.
fn outcome_text(outcome: &Option<Outcome>) -> &'static [u8]
    ensures { result.now ≡ codes " " ++ outcome_text outcome.now ++ codes "\n" }
{
    match outcome {
        None => b" Open\n",
        Some(Outcome::Success) => b" Success\n",
        Some(Outcome::Closed) => b" Closed\n",
        Some(Outcome::Fault) => b" Fault\n",
        Some(Outcome::Unsupported) => b" Unsupported\n",
    }
}

/// Adds a line for each event.
fn add_tail(text: &mut Vec<u8>, events: &[Event]) -> Result<(), AllocError>
    ensures { OnOk result (text.new.items ≡ text.old.items ++ flat_map event_line events.now) }
{
    for event in events {
        add_event(text, event)?;
        text.push(b'\n')?;
    }
    Ok(())
}

/// Adds a line for each write, after its number.
fn add_writes(text: &mut Vec<u8>, writes: &[Option<Outcome>]) -> Result<(), AllocError>
    ensures { OnOk result (text.new.items ≡ text.old.items ++ write_lines 0 writes.now) }
{
    for (number, outcome) in writes.iter().enumerate() {
        add_number(text, number as u64)?;
        text.extend_from_slice(outcome_text(outcome))?;
    }
    Ok(())
}

/// Adds a label, a number and what ends it.
fn add_count(text: &mut Vec<u8>, label: &[u8], number: usize, end: &[u8]) -> Result<(), AllocError>
    ensures { OnOk result (text.new.items ≡ text.old.items ++ label.now ++ decimal number ++ end.now) }
{
    text.extend_from_slice(label)?;
    add_number(text, number as u64)?;
    text.extend_from_slice(end)
}

/// Adds the bytes that a channel has sent, and its writes.
fn add_sent(text: &mut Vec<u8>, report: &ChannelReport) -> Result<(), AllocError>
    ensures { OnOk result (text.new.items ≡ text.old.items ++ sent_text report.now) }
{
    add_count(text, b"bytes ", report.bytes.len(), b" ")?;
    add_hex(text, report.bytes.as_slice())?;
    add_count(text, b"\nwrites ", report.writes.len(), b"\n")?;
    add_writes(text, report.writes.as_slice())
}

/// Adds the lines of a channel, after its number.
pub(crate) fn add_channel(
    text: &mut Vec<u8>,
    number: usize,
    report: &ChannelReport,
) -> Result<(), AllocError>
    ensures { OnOk result (text.new.items ≡ text.old.items ++ channel_text number report.now) }
{
    add_count(text, b"channel ", number, b" ")?;
    text.extend_from_slice(stands_text(report.stands).as_bytes())?;
    add_count(text, b"\ntail ", report.tail.len(), b"\n")?;
    add_tail(text, report.tail.as_slice())?;
    add_sent(text, report)
}
