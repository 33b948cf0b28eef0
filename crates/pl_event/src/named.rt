//! The worlds that contracts name.

ghost use Rattle.std.specs.Prelude.{[]};
ghost use Rattle.pl_event.specs.Worlds.{World, carrying};

use std::marker::Brand;

/// Stands for one world: the data lanes with all the events that they carry, and whether a lane may be refused. It has
/// no functions, and costs nothing when it runs. A type parameter `W: Named` says that some values speak of the same
/// world; a caller picks the world where it passes `Brand`.
pub trait Named {
    ghost world: { World };
}

impl Named for Brand {
    ghost world = { carrying [] };
}
