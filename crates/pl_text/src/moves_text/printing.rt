//! Prints the text of moves.

ghost use Rattle.std.specs.Prelude.{◌≡◌, ◌≤◌, ◌∷◌, ◌++◌, All, length, IfOk, OnOk, decimal, encode_utf8, string_bytes};
ghost use Rattle.pl_text.specs.declared.moves_text.TheConstants.{MAX_MOVES};
ghost use Rattle.pl_text.specs.MovesTexts.{IsSayable, MeansMoves, move_text, next_word, terms_text};

use pl_world::Move;
use std::alloc::{AllocError, Global};
use std::fmt;
use std::fmt::Write as _;

/// A move, as a term without a count (`docs/FORMATS.md`, "Moves").
#[derive(Clone, Copy, Debug, PartialEq, Eq)]
pub struct MoveTerm {
    letter: char,
    number: u16,
}

impl MoveTerm {
    /// The term of a move. There is one for each.
    pub fn new(step: Move) -> Self
        ensures text { encode_utf8 result.letter ++ decimal result.number ≡ move_text step }
        ensures sayable { IsSayable step }
    {
        let (letter, number) = match step {
            Move::Read(number) => ('R', number),
            Move::Task(number) => ('T', number),
            Move::Hand(number) => ('H', number),
            Move::Out(number) => ('O', number),
        };
        MoveTerm { letter, number }
    }
}

impl fmt::Display for MoveTerm {
    ghost use Rattle.std.specs.Prelude.{◌++◌, Some, decimal, encode_utf8};

    ghost output = { λ term. Some (encode_utf8 term.letter ++ decimal term.number) };

    fn fmt<W: fmt::Write>(&self, f: &mut fmt::Formatter<W>) -> fmt::Result {
        write!(f, "{}{}", self.letter, self.number)
    }
}

/// A text of moves, a term each, which reads back as these where they are `MAX_MOVES` at most.
pub fn moves_as_text(alloc: Global, moves: &[Move]) -> Result<String, AllocError>
    ensures { IfOk result (λ text. length moves.now ≤ MAX_MOVES → MeansMoves (string_bytes text) moves.now) }
{
    match moves.split_first() {
        None => Ok(String::new(alloc)),
        Some((first, rest)) => terms_of(alloc, *first, rest),
    }
}

/// The terms of moves, with a space between each two.
fn terms_of(alloc: Global, first: Move, rest: &[Move]) -> Result<String, AllocError>
    ensures bytes { IfOk result (λ text. string_bytes text ≡ terms_text (first ∷ rest.now)) }
    ensures sayable { IfOk result (λ _. All IsSayable (first ∷ rest.now)) }
{
    let term = MoveTerm::new(first);
    let mut text = term.to_string(alloc)?;
    for step in rest {
        add_term(&mut text, *step)?;
    }
    Ok(text)
}

/// Adds a space, and the term of a move.
fn add_term(text: &mut String, step: Move) -> Result<(), AllocError>
    ensures bytes { OnOk result (string_bytes text.new ≡ string_bytes text.old ++ next_word step) }
    ensures sayable { IsSayable step }
{
    let term = MoveTerm::new(step);
    write!(text, " {term}")?;
    Ok(())
}
