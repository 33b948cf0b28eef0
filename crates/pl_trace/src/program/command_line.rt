//! What the command line requests, as `clap` reads it.

use clap::{Arg, ArgAction, ArgMatches, Command, Error, value_parser};
use pl_schedule::Order;
use std::alloc::{AllocError, Global};

/// What a command line requests.
#[derive(Clone, Copy, Debug)]
pub(super) enum Request<'a> {
    /// What each move of a schedule does.
    Moves(Source<'a>),
    /// The same as a picture.
    Picture(Source<'a>),
    /// A schedule.
    Schedule(Order),
    /// Whether the session is read.
    Check,
}

/// Where a schedule is.
#[derive(Clone, Copy, Debug)]
pub(super) enum Source<'a> {
    /// It is this text.
    Text(&'a str),
    /// In the file of this name.
    File(&'a str),
}

const ABOUT: &str =
    "Shows what a schedule does with a session, finds schedules, and checks sessions.
Each command reads a session from standard input; docs/FORMATS.md has its text.";

const MOVES: &str =
    "Writes what each move did: whether it was enabled and else why not, which handler \
took what, what waits and what was handed over, what came to the tail and the transport, and how writes ended; \
at the end how each channel stands and what is left";

const PICTURE: &str =
    "Writes the same as a picture, an SVG: moves to the right, a row for each queue and executor";

const SCHEDULE: &str =
    "Makes moves until none is enabled, and writes them, for pl_tool replay --moves; \
says on standard error how each channel stands then";

const CHECK: &str =
    "Says whether the session is read, and else where and why it is refused; warns of members that no \
table names, and of executors that may wait for one another in a circle";

const STATUS: &str =
    "Status: 0 where every channel is drained, or the session is read; 1 where some channel is not; \
2 where the command line or the moves are refused, 3 where the input is, 4 for memory or output.";

/// The program's command line, as `clap` is told of it.
fn command<'a>(alloc: Global) -> Result<Command<'a>, AllocError> {
    Command::new(alloc, "pl_trace")
        .about(ABOUT)
        .after_help(STATUS)
        .subcommand_required(true)
        .subcommand(with_source(alloc, Command::new(alloc, "moves").about(MOVES))?)?
        .subcommand(schedule_command(alloc)?)?
        .subcommand(with_source(alloc, Command::new(alloc, "picture").about(PICTURE))?)?
        .subcommand(Command::new(alloc, "check").about(CHECK))
}

/// A subcommand to which a schedule may be given.
fn with_source<'a>(alloc: Global, command: Command<'a>) -> Result<Command<'a>, AllocError> {
    let moves = option(alloc, "moves", "MOVES").help(
        "The moves, as \"R0x3 O0\"; groups may repeat, as \"(R0 H0 T1)x40\"; else none",
    );
    let file = option(alloc, "moves-file", "FILE")
        .help("A file with the moves, on lines, where # begins a comment")
        .conflicts_with("moves")?;
    command.arg(moves)?.arg(file)
}

/// An option with a value.
fn option<'a>(alloc: Global, name: &'a str, value: &'a str) -> Arg<'a> {
    Arg::new(alloc, name)
        .long(name)
        .value_name(value)
        .action(ArgAction::Set)
}

/// The subcommand that makes a schedule.
fn schedule_command<'a>(alloc: Global) -> Result<Command<'a>, AllocError> {
    let fair = Arg::new(alloc, "fair")
        .long("fair")
        .action(ArgAction::SetTrue)
        .help("Takes all moves in turn, as without an option");
    let seed = option(alloc, "seed", "N")
        .value_parser(value_parser!(u64))
        .help("Draws each move by a generator of this seed")
        .conflicts_with("fair")?;
    Command::new(alloc, "schedule")
        .about(SCHEDULE)
        .arg(fair)?
        .arg(seed)
}

/// What the command line requests. The first argument is the program's name. An `Err` is a help text, too.
pub(super) fn request_of<'a>(alloc: Global, args: &'a [String]) -> Result<Request<'a>, Error> {
    let matches = command(alloc)?.try_get_matches_from(args)?;
    Ok(match matches.subcommand() {
        Some(("moves", found)) => Request::Moves(source_of(found)),
        Some(("picture", found)) => Request::Picture(source_of(found)),
        Some(("schedule", found)) => Request::Schedule(order_of(found)),
        _ => Request::Check,
    })
}

/// The schedule that is given.
fn source_of<'a>(found: &ArgMatches<'a>) -> Source<'a> {
    match found.get_str("moves-file") {
        Some(file) => Source::File(file),
        None => Source::Text(found.get_str("moves").unwrap_or("")),
    }
}

/// The order in which moves are made.
fn order_of(found: &ArgMatches<'_>) -> Order {
    match found.get_one::<u64>("seed") {
        Some(seed) => Order::Seed(seed),
        None => Order::Fair,
    }
}
