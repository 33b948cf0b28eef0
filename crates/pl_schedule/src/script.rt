//! A schedule in a file: terms as `read_moves` reads them, on lines, with comments and repeated groups.

ghost use Rattle.std.specs.Prelude.{◌≤◌, length, IfOk, OnOk};
ghost use Rattle.pl_text.specs.declared.moves_text.TheConstants.{MAX_MOVES};

use pl_text::{MAX_MOVES, MovesFault, read_moves};
use pl_world::Move;
use std::alloc::{AllocError, Global};

/// Why a schedule was not read, and where.
#[derive(Debug, Drop)]
pub struct Unread {
    pub fault: MovesFault,
    /// Counted from 1, and 0 where memory ran out.
    pub line: usize,
    /// What stands there.
    pub term: String,
}

/// The moves so far, and where each group began that is not closed.
#[derive(Drop)]
struct Script {
    moves: Vec<Move>,
    groups: Vec<usize>,
}

/// Reads a schedule: terms, spaces and line ends between them; `#` begins a comment, to the end of its line; and
/// `(R0 H0 T1)x40` is a group, forty times. A group may have groups in it.
///
/// It is `Form` where a term is none or a bracket has no other, and `Limit` where there are more than `MAX_MOVES` moves.
pub fn read_script(alloc: Global, text: &str) -> Result<Vec<Move>, Unread>
    ensures { IfOk result (λ moves. length moves.items ≤ MAX_MOVES) }
{
    let mut script = Script {
        moves: Vec::new(alloc),
        groups: Vec::new(alloc),
    };
    let mut number = 0usize;
    for line in text.split('\n') {
        number = number.saturating_add(1);
        add_line(alloc, &mut script, number, line)?;
    }
    if !script.groups.is_empty() {
        return Err(refused_at(alloc, MovesFault::Form, number, "("));
    }
    let Script { moves, groups: _ } = script;
    if MAX_MOVES < moves.len() {
        return Err(refused_at(alloc, MovesFault::Limit, number, ""));
    }
    Ok(moves)
}

/// Adds the terms of a line.
fn add_line(alloc: Global, script: &mut Script, number: usize, line: &str) -> Result<(), Unread> {
    let spaced = match spaced(alloc, line) {
        Ok(spaced) => spaced,
        Err(AllocError) => return Err(no_memory(alloc)),
    };
    for term in spaced.as_str().split_whitespace() {
        if let Err(fault) = add_term(alloc, script, term) {
            return Err(refused_at(alloc, fault, number, term));
        }
    }
    Ok(())
}

/// The terms of a line, without its comment, with spaces round brackets.
fn spaced(alloc: Global, line: &str) -> Result<String, AllocError> {
    let terms = match line.split_once('#') {
        Some((terms, _)) => terms,
        None => line,
    };
    let mut spaced = String::new(alloc);
    for letter in terms.chars() {
        match letter {
            '(' => spaced.push_str(" ( ")?,
            ')' => spaced.push_str(" )")?,
            _ => spaced.push(letter)?,
        }
    }
    Ok(spaced)
}

/// Adds a term: a bracket, or moves.
fn add_term(alloc: Global, script: &mut Script, term: &str) -> Result<(), MovesFault> {
    if term == "(" {
        return script
            .groups
            .push(script.moves.len())
            .map_err(|_| MovesFault::Memory);
    }
    match term.strip_prefix(')') {
        Some(times) => close_group(alloc, script, times),
        None => add_moves(alloc, &mut script.moves, term),
    }
}

/// Adds the moves of a term.
fn add_moves(alloc: Global, moves: &mut Vec<Move>, term: &str) -> Result<(), MovesFault> {
    let more = read_moves(alloc, term)?;
    if MAX_MOVES.saturating_sub(moves.len()) < more.len() {
        return Err(MovesFault::Limit);
    }
    for step in more.as_slice() {
        moves.push(*step).map_err(|_| MovesFault::Memory)?;
    }
    Ok(())
}

/// Closes the last group, which is made as often as `times` says: `x` and a count, or once where there is none.
fn close_group(alloc: Global, script: &mut Script, times: &str) -> Result<(), MovesFault> {
    let Some(start) = script.groups.pop() else {
        return Err(MovesFault::Form);
    };
    // The count is one of a term, so it is read as one.
    let counted = format!(in alloc; "R0{times}").map_err(|_| MovesFault::Memory)?;
    let copies = read_moves(alloc, counted.as_str())?.len();
    repeat(&mut script.moves, start, copies)
}

/// Makes of the moves from `start` on so many copies.
fn repeat(moves: &mut Vec<Move>, start: usize, copies: usize) -> Result<(), MovesFault> {
    let end = moves.len();
    let size = end.saturating_sub(start);
    let more = size.saturating_mul(copies.saturating_sub(1));
    if MAX_MOVES.saturating_sub(end) < more {
        return Err(MovesFault::Limit);
    }
    for _ in 1..copies {
        for at in start..end {
            if let Some(step) = moves.get(at).copied() {
                moves.push(step).map_err(|_| MovesFault::Memory)?;
            }
        }
    }
    Ok(())
}

/// A refusal at a term of a line.
fn refused_at(alloc: Global, fault: MovesFault, line: usize, term: &str) -> Unread {
    match String::from_str(alloc, term) {
        Ok(term) if fault != MovesFault::Memory => Unread { fault, line, term },
        _ => no_memory(alloc),
    }
}

/// A refusal for memory.
fn no_memory(alloc: Global) -> Unread {
    Unread {
        fault: MovesFault::Memory,
        line: 0,
        term: String::new(alloc),
    }
}
