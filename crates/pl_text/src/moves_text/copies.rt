//! The moves of terms: as many copies of each as its term says.

ghost use Rattle.std.specs.Prelude.{◌≡◌, ◌≤◌, ◌<◌, IfOk, MatchOption};
ghost use Rattle.pl_text.specs.MovesTexts.{copies_of_term, moves_said, moves_of_terms};

use super::terms::Term;
use pl_world::Move;
use std::alloc::{AllocError, Global};

/// How often the move of a term is made: once where it has no count.
fn times(term: &Term) -> u32
    ensures { result ≡ copies_of_term term.now }
{
    term.count.unwrap_or(1)
}

/// How many moves the terms say, or None where they are more than a limit.
pub(crate) fn count_of(limit: usize, terms: &[Term]) -> Option<usize>
    ensures { MatchOption result (limit < moves_said terms.now) (λ count. (count ≡ moves_said terms.now) × (count ≤ limit)) }
{
    let mut count = 0usize;
    for term in terms {
        count = count.checked_add(times(term) as usize)?;
    }
    (count <= limit).then_some(count)
}

/// The moves of the terms, of which there are `len`.
pub(crate) fn moves_of_terms(
    alloc: Global,
    terms: &[Term],
    len: usize,
) -> Result<Vec<Move>, AllocError>
    ensures { IfOk result (λ moves. moves.items ≡ moves_of_terms terms.now) }
{
    let mut moves = Vec::with_capacity(alloc, len)?;
    for term in terms {
        moves.resize(moves.len() + times(term) as usize, term.step)?;
    }
    Ok(moves)
}
