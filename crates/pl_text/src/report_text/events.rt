//! The text of one event.

ghost use Rattle.std.specs.Prelude.{◌≡◌, ◌++◌, ◌≤◌, OnOk, codes, decimal, length};
ghost use Rattle.hex.specs.Hex.{encode_lower};
ghost use Rattle.pl_stages.specs.Replies.{reply_text};
ghost use Rattle.pl_text.specs.declared.report_text.events.TheConstants.{AT_ONCE};
ghost use Rattle.pl_text.specs.ReportTexts.{command_text, event_text, hex_text, message_text};

use itoa::Buffer;
use pl_event::{Caught, Command, Event, Key, Message, Reply};
use pl_stages::reply_text;
use std::alloc::AllocError;

/// So many bytes are written as hex at once.
const AT_ONCE: usize = 16;

/// Adds bytes in lower case hex, or a dash where there are none (`docs/FORMATS.md`, "Report").
pub fn add_hex(text: &mut Vec<u8>, bytes: &[u8]) -> Result<(), AllocError>
    ensures { OnOk result (text.new.items ≡ text.old.items ++ hex_text bytes.now) }
{
    if bytes.is_empty() {
        return text.extend_from_slice(b"-");
    }
    for some in bytes.chunks(AT_ONCE) {
        add_some(text, some)?;
    }
    Ok(())
}

/// Adds the hex of at most `AT_ONCE` bytes.
fn add_some(text: &mut Vec<u8>, bytes: &[u8]) -> Result<(), AllocError>
    requires { length bytes.now ≤ AT_ONCE }
    ensures { OnOk result (text.new.items ≡ text.old.items ++ encode_lower bytes.now) }
{
    let mut digits = [0u8; 2 * AT_ONCE];
    let digits = &mut digits[..2 * bytes.len()];
    match hex::encode_to_slice(bytes, digits) {
        Ok(()) => text.extend_from_slice(digits),
        Err(_) => unreachable!(),
    }
}

/// Adds a number in decimal.
pub(crate) fn add_number(text: &mut Vec<u8>, number: u64) -> Result<(), AllocError>
    ensures { OnOk result (text.new.items ≡ text.old.items ++ decimal number) }
{
    text.extend_from_slice(Buffer::new().format(number).as_bytes())
}

/// Adds a label and the name of a key.
fn add_named(text: &mut Vec<u8>, label: &[u8], key: &Key) -> Result<(), AllocError>
    ensures { OnOk result (text.new.items ≡ text.old.items ++ label.now ++ key.now) }
{
    text.extend_from_slice(label)?;
    text.extend_from_slice(key.as_slice())
}

/// Adds a reply, as the hex of the bytes that it is sent as.
fn add_reply(text: &mut Vec<u8>, reply: &Reply) -> Result<(), AllocError>
    ensures { OnOk result (text.new.items ≡ text.old.items ++ codes "Reply " ++ hex_text (reply_text reply.now)) }
{
    let sent = reply_text(*text.allocator(), reply)?;
    text.extend_from_slice(b"Reply ")?;
    add_hex(text, sent.as_slice())
}

/// Adds a command with what it names.
fn add_command(text: &mut Vec<u8>, command: &Command) -> Result<(), AllocError>
    ensures { OnOk result (text.new.items ≡ text.old.items ++ command_text command.now) }
{
    match command {
        Command::Ping => text.extend_from_slice(b"Ping"),
        Command::Quit => text.extend_from_slice(b"Quit"),
        Command::Echo(bytes) => {
            text.extend_from_slice(b"Echo ")?;
            add_hex(text, bytes.as_slice())
        }
        Command::Add(key, number) => {
            add_named(text, b"Add ", key)?;
            text.push(b' ')?;
            add_number(text, u64::from(*number))
        }
        Command::Get(key) => add_named(text, b"Get ", key),
    }
}

/// Adds a message: its kind, and its bytes as hex.
fn add_message(text: &mut Vec<u8>, message: &Message) -> Result<(), AllocError>
    ensures { OnOk result (text.new.items ≡ text.old.items ++ message_text message.now) }
{
    match message {
        Message::Bytes(bytes) => {
            text.extend_from_slice(b"Bytes ")?;
            add_hex(text, bytes.as_slice())
        }
        Message::Line(bytes) => {
            text.extend_from_slice(b"Line ")?;
            add_hex(text, bytes.as_slice())
        }
        Message::Command(command) => add_command(text, command),
        Message::Reply(reply) => add_reply(text, reply),
    }
}

/// Adds the text of an event (`docs/FORMATS.md`, "Report"), without an end of line.
pub fn add_event(text: &mut Vec<u8>, event: &Event) -> Result<(), AllocError>
    ensures { OnOk result (text.new.items ≡ text.old.items ++ event_text event.now) }
{
    match event {
        Event::Active => text.extend_from_slice(b"Active"),
        Event::ReadComplete => text.extend_from_slice(b"ReadComplete"),
        Event::Flush => text.extend_from_slice(b"Flush"),
        Event::Caught(Caught::TooLong) => text.extend_from_slice(b"Caught TooLong"),
        Event::Caught(Caught::Unknown) => text.extend_from_slice(b"Caught Unknown"),
        Event::Caught(Caught::Syntax) => text.extend_from_slice(b"Caught Syntax"),
        Event::User(number) => {
            text.extend_from_slice(b"User ")?;
            add_number(text, u64::from(*number))
        }
        Event::Read(message) => {
            text.extend_from_slice(b"Read ")?;
            add_message(text, message)
        }
        Event::Write(message) => {
            text.extend_from_slice(b"Write ")?;
            add_message(text, message)
        }
    }
}
