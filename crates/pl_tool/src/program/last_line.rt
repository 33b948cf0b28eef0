//! The line on the second writer.

ghost use Rattle.std.specs.Prelude.{◌≡◌, ◌≤◌, length, take, unwrap_or};
ghost use Rattle.std.specs.Io.KnownBytes.{Appends};
ghost use Rattle.pl_tool.specs.ProgramFailures.{failure_line, status_of};
ghost use Rattle.pl_tool.specs.ProgramOutcomes.{AppendsPrefixOf};

use super::failure::Failure;
use std::io::{ErrorKind, Write};

/// More writes than any line has bytes.
const MAX_WRITES: usize = 1_000_000;

/// Makes one write, and says how many bytes it took: 0 where it was interrupted, and None where it took none or failed.
#[tactic(auto, using(crate::proofs::LastLine::kept_is_none))]
fn write_some<E: Write>(bytes: &[u8], err: &mut E) -> Option<usize>
    ensures bound { unwrap_or result 0 ≤ length bytes.now }
    ensures bytes { Appends (E.contents err.old) (E.contents err.new) (take (unwrap_or result 0) bytes.now) }
{
    match err.write(bytes) {
        Ok(0) => None,
        Ok(count) => Some(count),
        Err(error) if error.kind() == ErrorKind::Interrupted => Some(0),
        Err(_) => None,
    }
}

/// Writes a line, or as much of it as the writer takes.
#[tactic(auto, using(crate::proofs::LastLine::none_written, crate::proofs::LastLine::more_written, crate::proofs::LastLine::written_part))]
fn write_line<E: Write>(line: &str, err: &mut E)
    ensures { AppendsPrefixOf line.now (E.contents err.old) (E.contents err.new) }
{
    let mut rest = line.as_bytes();
    for _ in 0..MAX_WRITES {
        let Some(count) = write_some(rest, err) else {
            return;
        };
        rest = rest.split_at(count).1;
        if rest.is_empty() {
            return;
        }
    }
}

/// Writes the line of a failure, and answers its status. A second writer that fails changes no status.
pub(super) fn say_last<E: Write>(failure: Failure, err: &mut E) -> u8
    ensures status { result ≡ status_of failure }
    ensures said { AppendsPrefixOf (failure_line failure) (E.contents err.old) (E.contents err.new) }
{
    write_line(failure.line(), err);
    failure.status()
}
