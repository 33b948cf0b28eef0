//! The plan that a run is made by.

ghost use Rattle.std.specs.Prelude.{[]};
ghost use Rattle.pl_world.specs.Plans.{Plan};

use pl_event::Named;
use std::marker::Brand;

/// A named world with the plan that it is made by. It exists in contracts alone.
pub trait Planned: Named {
    ghost use Rattle.pl_world.specs.Plans.{Plan};

    ghost plan: { Plan };
}

impl Planned for Brand {
    ghost use Rattle.std.specs.Prelude.{[]};
    ghost use Rattle.pl_world.specs.Plans.{Plan};

    ghost plan = { record { executors = 0; capacity = 0; channels = [] } };
}
