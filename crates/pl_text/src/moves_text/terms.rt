//! One term of a text of moves.

ghost use Rattle.std.specs.Prelude.{◌≡◌, ◌≢◌, ℕ, ◌++◌, ◌≤◌, Option, decimal, encode_utf8, IfSome, IfNone};
ghost use Rattle.pl_world.specs.declared.moves.Move.{Move};
ghost use Rattle.pl_world.specs.Movers.{mover_of};
ghost use Rattle.pl_text.specs.declared.moves_text.terms.Term.{Term};
ghost use Rattle.pl_text.specs.MovesTexts.{IsTermWithin, AreInRange, move_text, term_text, count_text};

use super::MAX_MOVES;
use itoa::Buffer;
use pl_world::Move;

/// The greatest number of a channel or an executor that a term can say.
const MAX_NUMBER: u32 = 65_535;

/// The greatest count of a term.
const MAX_COUNT: u32 = MAX_MOVES as u32;

/// A move, and how often it is made where the term says so.
#[derive(Clone, Copy, Debug, PartialEq, Eq)]
pub(crate) struct Term {
    pub(crate) step: Move,
    pub(crate) count: Option<u32>,
}

/// The number that a text is printed as, with no zero before it.
fn number(text: &str, max: u32) -> Option<u32>
    ensures some { IfSome result (λ n. (text.now ≡ decimal n) × (n ≤ max)) }
    ensures none { IfNone result ((n : ℕ) → n ≤ max → text.now ≢ decimal n) }
{
    let number: u32 = text.parse().ok()?;
    let mut buffer = Buffer::new();
    if max < number {
        return None;
    }
    if buffer.format(number) != text {
        return None;
    }
    Some(number)
}

/// The move of a letter, at a number.
fn move_of(letter: char, number: u16) -> Option<Move>
    ensures some { IfSome result (λ step. (move_text step ≡ encode_utf8 letter ++ decimal number) × (mover_of step ≡ number)) }
    ensures none { IfNone result ((step : Move) → move_text step ≢ encode_utf8 letter ++ decimal (mover_of step)) }
{
    match letter {
        'R' => Some(Move::Read(number)),
        'T' => Some(Move::Task(number)),
        'H' => Some(Move::Hand(number)),
        'O' => Some(Move::Out(number)),
        _ => None,
    }
}

/// The number of a term, and its count where it has one.
fn numbers(text: &str) -> Option<(u16, Option<u32>)>
    ensures some { IfSome result (λ p. (text.now ≡ decimal p.0 ++ count_text p.1) × AreInRange p.0 p.1) }
    ensures none { IfNone result ((n : ℕ) (count : Option ℕ) → AreInRange n count → text.now ≢ decimal n ++ count_text count) }
{
    match text.split_once('x') {
        None => {
            let digits = number(text, MAX_NUMBER)?;
            Some((digits as u16, None))
        }
        Some((digits, count)) => {
            let digits = number(digits, MAX_NUMBER)?;
            let count = number(count, MAX_COUNT)?;
            if count == 0 {
                return None;
            }
            Some((digits as u16, Some(count)))
        }
    }
}

/// The term that a text is, or None where it is not a term.
pub(crate) fn read_term(text: &str) -> Option<Term>
    ensures some { IfSome result (λ w. (text.now ≡ term_text w) × IsTermWithin w) }
    ensures none { IfNone result ((w : Term) → IsTermWithin w → text.now ≢ term_text w) }
{
    let mut letters = text.chars();
    let letter = letters.next()?;
    let (number, count) = numbers(letters.as_str())?;
    let step = move_of(letter, number)?;
    Some(Term { step, count })
}
