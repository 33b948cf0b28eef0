//! The handler that reads lines as commands.

ghost use Rattle.std.specs.Prelude.{◌≡◌, false, ◌+◌, ◌<◌, ◌≤◌, [], length, take, drop, Some, None, IfSome, vec_len, ◌||◌, codes};
ghost use Rattle.std.specs.List.{position};
ghost use Rattle.std.specs.Str.{bytes_eq};
ghost use Rattle.pl_stages.specs.Commands.{is_space, command_decoding, command_of, command_with, add_with, addition_of, get_with, key_in, decoded, read_as};

use crate::numbers::number_in;
use pl_event::{ByteString, Caught, Command, Event, Key, MapUp, Mapping, Message, Stage};
use std::alloc::{AllocError, Global};
use std::mem;

const SPACE: u8 = b' ';

const PING: &[u8] = b"PING";

const QUIT: &[u8] = b"QUIT";

const ECHO: &[u8] = b"ECHO";

const ADD: &[u8] = b"ADD";

const GET: &[u8] = b"GET";

/// Reads each line as a command, or says what is wrong with it (`docs/FORMATS.md`, "Commands").
#[derive(Debug, Drop)]
pub struct CommandDecoder;

impl CommandDecoder {
    /// The handler. It takes no memory until its first step.
    pub fn new() -> MapUp<Self>
        ensures meaning { ⟦<MapUp<CommandDecoder> as Stage>⟧.meaning result ≡ command_decoding }
        ensures stands { ⟦<MapUp<CommandDecoder> as Stage>⟧.stands_after result [] }
        ensures unspent { ⟦<MapUp<CommandDecoder> as Stage>⟧.is_spent result ≡ false }
    {
        MapUp::new(CommandDecoder)
    }
}

impl Mapping for CommandDecoder {
    ghost made_of = { λ s. decoded };

    fn map(&self, event: Event) -> Result<Event, AllocError> {
        Ok(match event {
            Event::Read(Message::Line(line)) => read_as(line),
            other => other,
        })
    }

    fn change(&self, alloc: Global, event: &mut Event) -> bool {
        if let Event::Read(Message::Line(line)) = event {
            let line = mem::replace(line, ByteString::from_vec(Vec::new(alloc)));
            *event = read_as(line);
        }
        true
    }
}

/// What a line is read as.
fn read_as(line: ByteString) -> Event
    ensures { result ≡ read_as (command_of line) }
{
    match command_of(line) {
        Ok(command) => Event::Read(Message::Command(command)),
        Err(caught) => Event::Caught(caught),
    }
}

/// The command of a line, or why it is none.
fn command_of(line: ByteString) -> Result<Command, Caught>
    ensures { result ≡ command_of line }
{
    match first_space(line.as_slice()) {
        None => command_alone(line.as_slice()),
        Some(end) => command_followed(line, end),
    }
}

/// The command of a verb that nothing follows.
fn command_alone(verb: &[u8]) -> Result<Command, Caught>
    ensures { result ≡ command_with verb.now None }
{
    if is_verb(verb, PING) {
        Ok(Command::Ping)
    } else if is_verb(verb, QUIT) {
        Ok(Command::Quit)
    } else if takes_argument(verb) {
        Err(Caught::Syntax)
    } else {
        Err(Caught::Unknown)
    }
}

/// Whether an argument follows this verb.
fn takes_argument(verb: &[u8]) -> bool
    ensures { result ≡ (bytes_eq verb.now (codes "ECHO") || bytes_eq verb.now (codes "ADD") || bytes_eq verb.now (codes "GET")) }
{
    is_verb(verb, ECHO) || is_verb(verb, ADD) || is_verb(verb, GET)
}

/// The command of a line whose first space is at `end`.
fn command_followed(mut line: ByteString, end: usize) -> Result<Command, Caught>
    requires { end < length line }
    ensures { result ≡ command_with (take end line) (Some (drop (end + 1) line)) }
{
    let verb = &line.as_slice()[..end];
    let argument = &line.as_slice()[end + 1..];
    if is_verb(verb, ECHO) {
        line.drop_front(end + 1);
        Ok(Command::Echo(line))
    } else if is_verb(verb, ADD) {
        add_with(argument)
    } else if is_verb(verb, GET) {
        get_with(argument)
    } else if is_verb(verb, PING) || is_verb(verb, QUIT) {
        Err(Caught::Syntax)
    } else {
        Err(Caught::Unknown)
    }
}

/// Whether a text is this verb. It is short, so each byte is looked at.
fn is_verb(text: &[u8], verb: &[u8]) -> bool
    ensures { result ≡ bytes_eq text.now verb.now }
{
    if text.len() != verb.len() {
        return false;
    }
    for at in 0..verb.len() {
        if text[at] != verb[at] {
            return false;
        }
    }
    true
}

/// Where the first space is. It is near, so each byte is looked at.
fn first_space(text: &[u8]) -> Option<usize>
    ensures place { result ≡ position is_space text.now }
    ensures within { IfSome result (λ at. at < length text.now) }
{
    text.iter().position(|byte| *byte == SPACE)
}

/// The addition of a key, a space and a number.
fn add_with(argument: &[u8]) -> Result<Command, Caught>
    ensures { result ≡ add_with (Some argument.now) }
{
    match first_space(argument) {
        None => Err(Caught::Syntax),
        Some(end) => addition_of(&argument[..end], number_in(&argument[end + 1..])),
    }
}

/// The addition of a number to the key of this name, where the name is one of a key and there is a number.
fn addition_of(name: &[u8], number: Option<u32>) -> Result<Command, Caught>
    ensures { result ≡ addition_of (key_in name.now) number }
{
    let key = Key::new(name).ok_or(Caught::Syntax)?;
    let number = number.ok_or(Caught::Syntax)?;
    Ok(Command::Add(key, number))
}

/// The command that asks for the total of the key of this name.
fn get_with(name: &[u8]) -> Result<Command, Caught>
    ensures { result ≡ get_with (Some name.now) }
{
    let key = Key::new(name).ok_or(Caught::Syntax)?;
    Ok(Command::Get(key))
}
