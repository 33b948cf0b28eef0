//! Reads the text of a list of moves.

ghost use Rattle.std.specs.Prelude.{◌≡◌, ◌<◌, ◌⊎◌, List, IfOk, IfErr};
ghost use Rattle.pl_text.specs.declared.moves_text.terms.Term.{Term};
ghost use Rattle.pl_text.specs.declared.faults.MovesFault.TheVariants as fault;
ghost use Rattle.pl_text.specs.MovesTexts.{MeansMoves, Says, moves_said, moves_of_terms};

mod copies;
mod printing;
mod terms;

use crate::faults::MovesFault;
use copies::{count_of, moves_of_terms};
use pl_world::Move;
pub use printing::{MoveTerm, moves_as_text};
use std::alloc::Global;
use terms::{Term, read_term};

/// How many moves a text says at most.
pub const MAX_MOVES: usize = 1_000_000;

/// The terms that a text says.
fn read_terms(alloc: Global, text: &str) -> Result<Vec<Term>, MovesFault>
    ensures ok { IfOk result (λ terms. Says text.now terms.items) }
    ensures err { IfErr result (λ e. (e ≡ fault.Memory) ⊎ ((e ≡ fault.Form) × ((ws : List Term) → Says text.now ws → ⊥))) }
{
    let mut terms = Vec::new(alloc);
    if text.is_empty() {
        return Ok(terms);
    }
    for piece in text.split(' ') {
        match read_term(piece) {
            Some(term) => terms.push(term).map_err(|_| MovesFault::Memory)?,
            None => return Err(MovesFault::Form),
        }
    }
    Ok(terms)
}

/// The moves that a text says (`docs/FORMATS.md`, "Moves"): terms parted by one space each, a term being `R`, `T`, `H`
/// or `O`, a number up to 65,535, and where it has one `x` and a count from 1 to `MAX_MOVES`.
///
/// `Form`: what stands between spaces is not a term, wherever it is. `Limit`: it is terms, of more than `MAX_MOVES` moves in all.
/// `Memory`: an allocation failed.
pub fn read_moves(alloc: Global, text: &str) -> Result<Vec<Move>, MovesFault>
    ensures ok { IfOk result (λ moves. MeansMoves text.now moves.items) }
    ensures form { result ≡ Err fault.Form → (ws : List Term) → Says text.now ws → ⊥ }
    ensures limit { result ≡ Err fault.Limit → (ws : List Term) × Says text.now ws × (MAX_MOVES < moves_said ws) }

    // The text says one list of terms at most, so these are its moves.
    ensures only { IfOk result (λ moves. (ws : List Term) → Says text.now ws → moves.items ≡ moves_of_terms ws) }
    ensures every { result ≡ Err fault.Limit → (ws : List Term) → Says text.now ws → MAX_MOVES < moves_said ws }
{
    let terms = read_terms(alloc, text)?;
    let Some(count) = count_of(MAX_MOVES, terms.as_slice()) else {
        return Err(MovesFault::Limit);
    };
    let moves = moves_of_terms(alloc, terms.as_slice(), count).map_err(|_| MovesFault::Memory)?;
    Ok(moves)
}
