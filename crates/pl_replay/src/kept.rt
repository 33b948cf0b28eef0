//! The stages of all channels, given back.

ghost use Rattle.std.specs.Prelude.{◌≡◌, IfOk, map};
ghost use Rattle.pl_part.specs.Keeping.{part_stages};

use pl_event::Stage;
use pl_head::Transport;
use pl_part::{ChannelPart, KeptStage};
use std::alloc::{AllocError, Global};

/// The stages of parts that are used no more, each by its hop.
pub(crate) fn stages_of<S: Stage, T: Transport>(
    alloc: Global,
    parts: Vec<ChannelPart<S, T>>,
) -> Result<Vec<Vec<Option<KeptStage<S>>>>, AllocError>
    ensures { IfOk result (λ channels. map (λ stages. stages.items) channels.items ≡ map (λ part. part_stages part) parts.items) }
{
    let mut channels = Vec::with_capacity(alloc, parts.len())?;
    for part in parts {
        channels.push(part.into_stages(alloc)?)?;
    }
    Ok(channels)
}
