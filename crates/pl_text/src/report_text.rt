//! Prints the text of a report.

ghost use Rattle.std.specs.Prelude.{◌≡◌, Err, IfOk, OnOk};
ghost use Rattle.std.specs.Io.KnownBytes.{Appends, Keeps};
ghost use Rattle.pl_text.specs.declared.faults.PrintFault.TheVariants as fault;
ghost use Rattle.pl_text.specs.ReportTexts.{report_text};

mod channels;
mod events;

use crate::faults::PrintFault;
use channels::add_channel;
pub use channels::stands_text;
pub use events::{add_event, add_hex};
use pl_world::Report;
use std::alloc::{AllocError, Global};
use std::io::Write;

/// About how many bytes a line of the tail has, one of the writes, and all other lines of a channel together.
const TAIL_LINE: usize = 24;

const WRITE_LINE: usize = 16;

const OTHER_LINES: usize = 64;

/// The text of a report. Room for about all of it is made at once.
fn text_of(alloc: Global, report: &Report) -> Result<Vec<u8>, AllocError>
    ensures { IfOk result (λ text. text.items ≡ report_text report.now) }
{
    let mut text = Vec::with_capacity(alloc, likely_length(report))?;
    for (number, channel) in report.channels.as_slice().iter().enumerate() {
        add_channel(&mut text, number, channel)?;
    }
    Ok(text)
}

/// About how many bytes the text of a report has.
fn likely_length(report: &Report) -> usize {
    let mut length = 0usize;
    for channel in report.channels.as_slice() {
        let tail = channel.tail.len().saturating_mul(TAIL_LINE);
        let writes = channel.writes.len().saturating_mul(WRITE_LINE);
        let hex = channel.bytes.len().saturating_mul(2);
        length = length
            .saturating_add(OTHER_LINES)
            .saturating_add(tail)
            .saturating_add(writes)
            .saturating_add(hex);
    }
    length
}

/// Writes the text of a report (`docs/FORMATS.md`, "Report"), which it makes whole before it writes.
///
/// `Memory`: an allocation failed, and nothing was written. `Output`: the writer failed; how much it wrote is not known.
pub fn print_report<W: Write>(
    alloc: Global,
    report: &Report,
    writer: &mut W,
) -> Result<(), PrintFault>
    ensures ok { OnOk result (Appends (W.contents writer.old) (W.contents writer.new) (report_text report.now)) }
    ensures memory { result ≡ Err fault.Memory → Keeps (W.contents writer.old) (W.contents writer.new) }
{
    let text = text_of(alloc, report).map_err(|_| PrintFault::Memory)?;
    match writer.write_all(text.as_slice()) {
        Ok(()) => Ok(()),
        Err(_) => Err(PrintFault::Output),
    }
}
