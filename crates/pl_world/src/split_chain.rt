//! An inbound chain, split at its turn.

ghost use Rattle.std.specs.Prelude.{◌≡◌, ◌<◌, ◌∷◌, ◌++◌, length, IfOk, true, false};
ghost use Rattle.std.specs.List.{list_any};
ghost use Rattle.pl_event.specs.Paths.{is_turn};
ghost use Rattle.pl_build.specs.Pipelines.{hop_of_turn};

use pl_event::Stage;
use std::alloc::AllocError;

/// An inbound chain, split at its turn.
#[derive(Drop)]
pub(crate) struct SplitChain<S> {
    pub(crate) before: Vec<S>,
    pub(crate) turn: S,
    pub(crate) after: Vec<S>,
}

/// Splits an inbound chain at the hop of its turn.
pub(crate) fn split_chain<S: Stage>(
    inbound: Vec<S>,
    hop: usize,
) -> Result<SplitChain<S>, AllocError>
    requires turn { hop ≡ hop_of_turn S.meaning inbound.items }
    requires within { hop < length inbound.items }
    ensures whole { IfOk result (λ split. inbound.items ≡ split.before.items ++ split.turn ∷ split.after.items) }
    ensures before { IfOk result (λ split. list_any (λ stage. is_turn (S.meaning stage).direction) split.before.items ≡ false) }
    ensures turn { IfOk result (λ split. is_turn (S.meaning split.turn).direction ≡ true) }
{
    let mut before = inbound;
    let after = before.split_off(hop + 1)?;
    let turn = before.remove(hop);
    Ok(SplitChain {
        before,
        turn,
        after,
    })
}
