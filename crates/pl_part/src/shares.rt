//! Slots of nodes, of which some are taken out.

ghost use Rattle.std.specs.Prelude.{◌≡◌, ℕ, ◌<◌, ◌≤◌, ◌==◌, ◌++◌, ◌∷◌, [], not, IfOk, OnErr, OnOk, None, get_or, length, vec_capacity, vec_len};
ghost use Rattle.pl_part.specs.Shares.{only_if};

use pl_context::Context;
use pl_event::Stage;
use std::alloc::{AllocError, Global};

/// Takes out what is there, where that is wanted.
pub fn take_where<N>(slot: &mut Option<N>, is_wanted: bool) -> Option<N>
    ensures taken { result ≡ only_if is_wanted slot.old }
    ensures left { slot.new ≡ only_if (not is_wanted) slot.old }
{
    if is_wanted { slot.take() } else { None }
}

/// Takes the contexts of an executor out, each at its hop. An `Err` is out of memory, and changes nothing.
pub fn take_contexts<S: Stage>(
    alloc: Global,
    contexts: &mut [Option<Context<S>>],
    executors: &[u16],
    executor: usize,
) -> Result<Vec<Option<Context<S>>>, AllocError>
    requires { length contexts.old ≤ length executors.now }
    ensures slots { IfOk result (λ taken. length taken.items ≡ length contexts.old) }
    ensures taken { IfOk result (λ taken. (hop : ℕ) → get_or taken.items hop None ≡ only_if (get_or executors.now hop 0 == executor) (get_or contexts.old hop None)) }
    ensures left { OnOk result ((hop : ℕ) → get_or contexts.new hop None ≡ only_if (not (get_or executors.now hop 0 == executor)) (get_or contexts.old hop None)) }
    ensures kept { OnErr result (contexts.new ≡ contexts.old) }
{
    let mut taken = Vec::with_capacity(alloc, contexts.len())?;
    for hop in 0..contexts.len() {
        let is_wanted = executors[hop] as usize == executor;
        add_where(&mut taken, &mut contexts[hop], is_wanted);
    }
    Ok(taken)
}

/// Adds a slot with what is there, where that is wanted, else an empty one. Most are empty, and those are quickly written.
#[inline(always)]
fn add_where<S: Stage>(
    taken: &mut Vec<Option<Context<S>>>,
    slot: &mut Option<Context<S>>,
    is_wanted: bool,
)
    requires room { vec_len taken.old < vec_capacity taken.old }
    ensures taken { taken.new.items ≡ taken.old.items ++ only_if is_wanted slot.old ∷ [] }
    ensures left { slot.new ≡ only_if (not is_wanted) slot.old }
    ensures capacity { vec_capacity taken.new ≡ vec_capacity taken.old }
{
    if is_wanted {
        taken.push_reserved(slot.take());
    } else {
        taken.push_reserved(None);
    }
}
