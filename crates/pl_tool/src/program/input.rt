//! The input of the program: the text of a session.

ghost use Rattle.std.specs.Prelude.{◌≡◌, ◌≤◌, ◌<◌, ◌+◌, List, ℕ, [], ◌++◌, length, false, All, IfErr, IfOk, OnOk};
ghost use Rattle.std.specs.Io.KnownBytes.{Consumes, IsAtEnd};
ghost use Rattle.pl_text.specs.declared.session_text.limits.TheConstants.{MAX_SESSION_TEXT};
ghost use Rattle.pl_world.specs.Sessions.{plan_of};
ghost use Rattle.pl_world.specs.Worlds.{IsUncalled};
ghost use Rattle.pl_text.specs.SessionReading.{AnswersMeaning, seen};
ghost use Rattle.pl_tool.specs.ProgramOutcomes.{EndsReading, RefusesInput, TakesAtMost, TakesSession, session_of_bytes};

use super::failure::Failure;
use pl_event::Stage;
use pl_head::{MemoryTransport, Transport};
use pl_stages::Handler;
use pl_text::{MAX_SESSION_TEXT, SessionFault, read_session};
use pl_world::Session;
use std::alloc::Global;
use std::io::Read;

/// How many bytes `run_tool` takes from its reader at most: one more than the text of a session may have shows that it is
/// too long.
pub const MAX_INPUT: usize = MAX_SESSION_TEXT + 1;
/// How many bytes one read asks for at most.
const MAX_READ: usize = 8_192;

/// Makes one read of at most the buffer's length, adds its bytes to the input, and says whether more may come: not at
/// the end. An interrupted read adds none. Where the input would be too long for a session it is refused as that, and
/// takes no memory.
fn read_chunk<R: Read>(
    reader: &mut R,
    buffer: &mut [u8],
    input: &mut Vec<u8>,
) -> Result<bool, Failure>
    requires { length input.old.items ≤ MAX_SESSION_TEXT }
    ensures taken { IfOk result (λ _. (bytes : List ℕ) × Consumes (R.remaining reader.old) (R.remaining reader.new) bytes
        × (length bytes ≤ length buffer.old) × (input.new.items ≡ input.old.items ++ bytes)) }
    ensures fits { OnOk result (length input.new.items ≤ MAX_SESSION_TEXT) }
    ensures end { IfOk result (λ more. more ≡ false → 0 < length buffer.old → IsAtEnd (R.remaining reader.new)) }
    ensures at_most { TakesAtMost (length buffer.old) (R.remaining reader.old) (R.remaining reader.new) }
    ensures err { IfErr result (λ e. (bytes : List ℕ) × Consumes (R.remaining reader.old) (R.remaining reader.new) bytes
        × EndsReading e (length input.old.items + length bytes)) }
{
    match reader.read(buffer) {
        Ok(count) if MAX_SESSION_TEXT - input.len() < count => {
            Err(Failure::Session(SessionFault::Limit))
        }
        Ok(count) => match input.extend_from_slice(&buffer[..count]) {
            Ok(()) => Ok(0 < count),
            Err(_) => Err(Failure::Memory),
        },
        Err(error) => match Failure::of_read(&error) {
            Some(failure) => Err(failure),
            None => Ok(true),
        },
    }
}

/// Reads to the end. It makes at most as many reads as it may take bytes, interrupted ones included.
fn read_input<R: Read>(reader: &mut R, input: &mut Vec<u8>) -> Result<(), Failure>
    requires { input.old.items ≡ [] }
    ensures taken { OnOk result (Consumes (R.remaining reader.old) (R.remaining reader.new) input.new.items) }
    ensures fits { OnOk result (length input.new.items ≤ MAX_SESSION_TEXT) }
    ensures whole { OnOk result (IsAtEnd (R.remaining reader.new)) }
    ensures at_most { TakesAtMost MAX_INPUT (R.remaining reader.old) (R.remaining reader.new) }
    ensures err { IfErr result (λ e. RefusesInput e (R.remaining reader.old) (R.remaining reader.new)) }
{
    let mut buffer = [0u8; MAX_READ];
    for _ in 0..MAX_INPUT {
        let room = (MAX_INPUT - input.len()).min(MAX_READ);
        if !read_chunk(reader, &mut buffer[..room], input)? {
            return Ok(());
        }
    }
    Err(Failure::Input)
}

/// The session that bytes mean.
fn session_in(alloc: Global, input: &[u8]) -> Result<Session, SessionFault>
    requires { length input.now ≤ MAX_SESSION_TEXT }
    ensures means { AnswersMeaning (seen (plan_of ⟦<Handler as Stage>⟧.meaning ⟦<MemoryTransport as Transport>⟧.state) result) (session_of_bytes input.now) }
    ensures uncalled { IfOk result (λ session. All (λ c. IsUncalled (⟦<MemoryTransport as Transport>⟧.state c.transport)) session.world.channels) }
{
    match str::from_utf8(input) {
        Ok(text) => read_session(alloc, text),
        Err(_) => Err(SessionFault::NotJson),
    }
}

/// Reads a session from the whole input.
pub(crate) fn take_session<R: Read>(alloc: Global, reader: &mut R) -> Result<Session, Failure>
    ensures ok { IfOk result (λ session. TakesSession (R.remaining reader.old) (R.remaining reader.new) (plan_of ⟦<Handler as Stage>⟧.meaning ⟦<MemoryTransport as Transport>⟧.state session)) }
    ensures uncalled { IfOk result (λ session. All (λ c. IsUncalled (⟦<MemoryTransport as Transport>⟧.state c.transport)) session.world.channels) }
    ensures at_most { TakesAtMost MAX_INPUT (R.remaining reader.old) (R.remaining reader.new) }
    ensures err { IfErr result (λ e. RefusesInput e (R.remaining reader.old) (R.remaining reader.new)) }
{
    let mut input = Vec::new(alloc);
    read_input(reader, &mut input)?;
    Ok(session_in(alloc, input.as_slice())?)
}
