//! The stages of a channel, given back.

ghost use Rattle.std.specs.Prelude.{◌≡◌, IfOk};
ghost use Rattle.std.specs.Option.{option_map};
ghost use Rattle.pl_part.specs.Keeping.{kept_stage, kept_stages};

use pl_context::{Context, Standing};
use pl_event::Stage;
use std::alloc::{AllocError, Global};

/// A stage that its channel has given back.
#[derive(Drop)]
pub struct KeptStage<S: Stage> {
    /// How its context stood.
    pub standing: Standing,
    pub stage: S,
}

/// The stages of contexts, by hop.
pub(crate) fn stages_of<S: Stage>(
    alloc: Global,
    contexts: Vec<Option<Context<S>>>,
) -> Result<Vec<Option<KeptStage<S>>>, AllocError>
    ensures { IfOk result (λ stages. stages.items ≡ kept_stages contexts.items) }
{
    let mut stages = Vec::with_capacity(alloc, contexts.len())?;
    for slot in contexts {
        stages.push(stage_at(slot))?;
    }
    Ok(stages)
}

/// The stage of a context, where there is one.
fn stage_at<S: Stage>(slot: Option<Context<S>>) -> Option<KeptStage<S>>
    ensures { result ≡ option_map kept_stage slot }
{
    match slot {
        Some(context) => Some(KeptStage {
            standing: context.standing(),
            stage: context.into_stage(),
        }),
        None => None,
    }
}
