//! What the command line requests, as `clap` reads it.

ghost use Rattle.std.specs.Prelude.{◌≡◌, [], Some, codes, drop, map, option_and_then, option_map, string_bytes, unwrap_or, IfOk, IfSome};
ghost use Rattle.std.specs.List.{list_any};
ghost use Rattle.std.specs.Str.{bytes_eq};
ghost use Rattle.clap.specs.Words.{FailsBy, app_of, fault_of, first_value, found_of, rows_of, subcommand_of, subcommand_rows_of, with_subcommand};
ghost use Rattle.pl_tool.specs.ProgramLines.{Run, subcommand_with, program, queue_named, request_of, request_of_subcommand, request_view};

use clap::{Arg, ArgAction, ArgMatches, Command, Error};
use pl_exec::QueueKind;
use std::alloc::{AllocError, Global};

/// What a command line requests.
#[derive(Clone, Copy)]
pub(crate) enum Request<'a> {
    /// The report of a replay by the moves of a text.
    Replay(&'a str),
    /// The report of a run, by executors with such queues.
    Run(QueueKind),
    /// The whole report.
    Plain,
}

/// Tells `clap` of a subcommand and of its one option, which takes a text.
fn with_option<'a>(
    alloc: Global,
    command: Command<'a>,
    name: &'a str,
    option: &'a str,
) -> Result<Command<'a>, AllocError>
    ensures { IfOk result (λ made. app_of made ≡ with_subcommand (app_of command.entry) (subcommand_with name.entry.now option.entry.now).top) }
{
    let taken = Arg::new(alloc, option).long(option).action(ArgAction::Set);
    command.subcommand(Command::new(alloc, name).arg(taken)?)
}

/// The program's command line, as `clap` is told of it.
fn command<'a>(alloc: Global) -> Result<Command<'a>, AllocError>
    ensures { IfOk result (λ made. app_of made ≡ program) }
{
    let program = Command::new(alloc, "pl_tool");
    let program = with_option(alloc, program, "replay", "moves")?;
    let program = with_option(alloc, program, "run", "queue")?;
    let plain = Command::new(alloc, "plain");
    program.subcommand(plain)
}

/// Whether an argument is a lone `-`.
fn is_any_dash(args: &[String]) -> bool
    ensures { result ≡ list_any (λ arg. bytes_eq (codes "-") (string_bytes arg)) args.now }
{
    args.iter().any(|arg| "-" == arg.as_str())
}

/// Whether an argument after the program's name is a lone `-`, which `clap` takes for a value and not for an option.
fn has_dash(args: &[String]) -> bool
    ensures { result ≡ list_any (λ arg. bytes_eq (codes "-") (string_bytes arg)) (drop 1 args.now) }
{
    match args.split_first() {
        Some((_, rest)) => is_any_dash(rest),
        None => false,
    }
}

/// What `clap` finds on the command line.
fn matches_of<'a>(alloc: Global, args: &'a [String]) -> Result<ArgMatches<'a>, Error>
    ensures found { IfOk result (λ matches. subcommand_rows_of matches ≡ subcommand_of program (map string_bytes args.entry.now)) }
    ensures kinds { FailsBy (fault_of program (map string_bytes args.entry.now)) result }
{
    let command = command(alloc)?;
    command.try_get_matches_from(args)
}

/// The text of the option `--moves` of `replay`, empty where it is not given.
#[tactic(auto, using(crate::proofs::ProgramReads::option_value))]
fn moves_text<'a>(replay: &ArgMatches<'a>) -> &'a str
    ensures { result.now ≡ unwrap_or (first_value (found_of replay.now) (codes "moves")) [] }
{
    replay.get_str("moves").unwrap_or("")
}

/// The queue of this name, or None where it is none's.
fn queue_named(name: &str) -> Option<QueueKind>
    ensures { result ≡ queue_named name.now }
{
    match name {
        "waiting" => Some(QueueKind::Waiting),
        "ring" => Some(QueueKind::Ring),
        _ => None,
    }
}

/// The run with the queue that the option `--queue` names, or None where it is not given or names none.
fn run_request<'a>(run: &ArgMatches<'_>) -> Option<Request<'a>>
    ensures { option_map request_view result ≡ option_map Run (option_and_then queue_named (first_value (found_of run.now) (codes "queue"))) }
{
    let queue = queue_named(run.get_str("queue")?)?;
    Some(Request::Run(queue))
}

/// The request of a subcommand, by its name and what was found of it.
fn request_of_subcommand<'a>(name: &str, found: &ArgMatches<'a>) -> Option<Request<'a>>
    ensures { option_map request_view result ≡ request_of_subcommand (name.now, rows_of (found_of found.now)) }
{
    if name == "replay" {
        return Some(Request::Replay(moves_text(found)));
    }
    if name == "run" {
        return run_request(found);
    }
    if name == "plain" {
        return Some(Request::Plain);
    }
    None
}

/// The request of the subcommand that was found, or None where there is none.
fn request_in<'a>(matches: &ArgMatches<'a>) -> Option<Request<'a>>
    ensures { option_map request_view result ≡ option_and_then request_of_subcommand (subcommand_rows_of matches.now) }
{
    let (name, found) = matches.subcommand()?;
    request_of_subcommand(name, found)
}

/// What the command line requests, or None where it is not read. The first argument is the program's name. Out of memory
/// inside `clap` counts as a line that is not read.
pub(crate) fn request_of<'a>(alloc: Global, args: &'a [String]) -> Option<Request<'a>>
    ensures { IfSome result (λ request. request_of (map string_bytes args.entry.now) ≡ Some (request_view request)) }
{
    if has_dash(args) {
        return None;
    }
    let Ok(matches) = matches_of(alloc, args) else {
        return None;
    };
    request_in(&matches)
}
