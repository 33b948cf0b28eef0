//! The handler that replies to commands.

ghost use Rattle.std.specs.Prelude.{◌≡◌, ◌≢◌, true, false, List, ◌++◌, ◌∷◌, [], None, IfSome, OnOk, ◌<◌, vec_len, vec_capacity};
ghost use Rattle.pl_event.specs.Meaning.{IsPrefixOf};
ghost use Rattle.pl_stages.specs.Service.{line_service, line_service-lawful, has_quit, is_quit, Addition, accepted, added_by, replies_to, fault_of};
ghost use Rattle.pl_stages.specs.Totals.{KeepsTotals};

use crate::totals::Totals;
use pl_event::{
    BareStage, Caught, Changed, Command, Direction, Event, Fault, Fused, Message, Reply, Stage,
    Taken, Turned,
};
use std::alloc::{AllocError, Global};

/// Replies to commands, and keeps totals, until it is told to quit (`docs/FORMATS.md`, "Service").
#[derive(Debug, Drop)]
pub struct LineService {
    totals: Totals,
    has_quit: bool,
}

impl LineService {
    /// The service, which holds no totals yet. It takes its memory from `alloc`.
    pub fn new(alloc: Global) -> Fused<Self>
        ensures meaning { ⟦<Fused<LineService> as Stage>⟧.meaning result ≡ line_service }
        ensures stands { ⟦<Fused<LineService> as Stage>⟧.stands_after result [] }
        ensures unspent { ⟦<Fused<LineService> as Stage>⟧.is_spent result ≡ false }
    {
        Fused::new(LineService {
            totals: Totals::new(alloc),
            has_quit: false,
        })
    }
}

impl BareStage for LineService {
    ghost meaning = { λ s. line_service };

    ghost stands_after = { λ s xs. (s.has_quit ≡ has_quit xs) × KeepsTotals s.totals (accepted xs) };

    fn direction(&self) -> Direction {
        Direction::Turn
    }

    fn take(&mut self, event: Event, up: &mut Vec<Event>, down: &mut Vec<Event>) -> Taken {
        if self.has_quit {
            drop(event);
            return Ok(Turned::Ended);
        }
        let quits = is_quit(&event);
        let replied = write_replies(&mut self.totals, &event, down);
        up.push(event)?;
        replied?;
        self.has_quit = quits;
        Ok(if quits { Turned::Ended } else { Turned::Open })
    }

    // What it takes goes up as it is, and its reply goes down. Not where it quits, a key is new to it, or memory is refused.
    fn change(&mut self, event: &mut Event, down: &mut Vec<Event>) -> Changed {
        if self.has_quit || down.reserve(1).is_err() {
            return Changed::No;
        }
        if write_at_once(&mut self.totals, event, down) {
            Changed::Up
        } else {
            Changed::No
        }
    }

    ghost lawful = { λ s. line_service-lawful };
}

/// Whether the event is the command to quit.
fn is_quit(event: &Event) -> bool
    ensures { result ≡ is_quit event.now }
{
    match event {
        Event::Read(Message::Command(Command::Quit)) => true,
        _ => false,
    }
}

/// Writes the replies to an event.
fn write_replies(
    totals: &mut Totals,
    event: &Event,
    down: &mut Vec<Event>,
) -> Result<(), AllocError>
    ensures down { OnOk result ((additions : List Addition) → KeepsTotals totals.old additions
        → down.new.items ≡ down.old.items ++ replies_to additions event.now) }
    ensures totals { OnOk result ((additions : List Addition) → KeepsTotals totals.old additions
        → KeepsTotals totals.new (additions ++ added_by additions event.now)) }
    ensures begins { IsPrefixOf down.old.items down.new.items }
{
    down.reserve(2)?;
    if write_at_once(totals, event, down) {
        return Ok(());
    }
    match event {
        Event::Read(Message::Command(Command::Quit)) => {
            down.push_reserved(written(Reply::Bye));
            down.push_reserved(Event::Flush);
            Ok(())
        }
        Event::Read(Message::Command(Command::Add(key, number))) => {
            let reply = totals.add(key, *number)?;
            down.push_reserved(written(reply));
            Ok(())
        }
        // A text was not copied.
        _ => Err(AllocError),
    }
}

/// Writes the reply to an event where there is one, for which there is room. False, and nothing has changed, at a quit,
/// at a key that is new, and where a text was not copied.
fn write_at_once(totals: &mut Totals, event: &Event, down: &mut Vec<Event>) -> bool
    requires room { vec_len down.old < vec_capacity down.old }
    ensures down { result ≡ true → (made : List Event) × (down.new.items ≡ down.old.items ++ made)
        × ((additions : List Addition) → KeepsTotals totals.old additions → replies_to additions event.now ≡ made) }
    ensures totals { result ≡ true → (additions : List Addition) → KeepsTotals totals.old additions
        → KeepsTotals totals.new (additions ++ added_by additions event.now) }
    ensures open { result ≡ true → is_quit event.now ≡ false }
    ensures kept { result ≡ false → (totals.new ≡ totals.old) × (down.new ≡ down.old) }
{
    match event {
        Event::Read(Message::Command(command)) => match answer_at_once(totals, command) {
            Some(reply) => down.push_reserved(written(reply)),
            None => return false,
        },
        Event::Caught(caught) => down.push_reserved(written(Reply::Error(fault_of(*caught)))),
        Event::ReadComplete => down.push_reserved(Event::Flush),
        _ => {}
    }
    true
}

/// Carries a command out. None, and nothing has changed, at a quit, at a key that is new, and where a text was not copied.
fn answer_at_once(totals: &mut Totals, command: &Command) -> Option<Reply>
    ensures reply { IfSome result (λ reply. (additions : List Addition) → KeepsTotals totals.old additions
        → replies_to additions (Event.Read (Message.Command command.now)) ≡ Event.Write (Message.Reply reply) ∷ []) }
    ensures totals { IfSome result (λ reply. (additions : List Addition) → KeepsTotals totals.old additions
        → KeepsTotals totals.new (additions ++ added_by additions (Event.Read (Message.Command command.now)))) }
    ensures open { IfSome result (λ reply. is_quit (Event.Read (Message.Command command.now)) ≡ false) }
    ensures kept { result ≡ None → totals.new ≡ totals.old }
{
    match command {
        Command::Ping => Some(Reply::Pong),
        Command::Echo(text) => match text.clone() {
            Ok(text) => Some(Reply::Text(text)),
            Err(_) => None,
        },
        Command::Add(key, number) => totals.add_to_held(key, *number),
        Command::Get(key) => Some(Reply::Total(totals.get(key))),
        Command::Quit => None,
    }
}

/// The write of a reply.
fn written(reply: Reply) -> Event
    ensures { result ≡ Event.Write (Message.Reply reply) }
{
    Event::Write(Message::Reply(reply))
}

/// What is replied to a line that is no command.
fn fault_of(caught: Caught) -> Fault
    ensures { result ≡ fault_of caught }
{
    match caught {
        Caught::TooLong => Fault::TooLong,
        Caught::Unknown => Fault::Unknown,
        Caught::Syntax => Fault::Syntax,
    }
}
