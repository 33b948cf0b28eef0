//! Executors at which nothing waits.

ghost use Rattle.std.specs.Prelude.{IfOk};
ghost use Rattle.pl_channel.specs.Ways.{ArePlaceable};
ghost use Rattle.pl_replay.specs.Idle.{AreIdle};

use pl_channel::places_between;
use pl_event::Stage;
use pl_head::Transport;
use pl_net::Station;
use pl_part::ChannelPart;
use std::alloc::{AllocError, Global};

/// The stations of executors at which nothing waits, each with places for the lanes from it to each.
pub(crate) fn idle_stations<S: Stage, T: Transport>(
    alloc: Global,
    count: usize,
    parts: &[ChannelPart<S, T>],
) -> Result<Vec<Station>, AllocError>
    requires { ArePlaceable parts.now }
    ensures { IfOk result (λ stations. AreIdle parts.now count stations.items) }
{
    let table = places_between(alloc, count, parts)?;
    let mut stations = Vec::with_capacity(alloc, count)?;
    for places in &table {
        stations.push(Station::new(alloc, places.as_slice())?)?;
    }
    Ok(stations)
}
