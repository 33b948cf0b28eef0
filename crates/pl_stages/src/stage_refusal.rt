//! Why a handler is not made.

ghost use Rattle.std.specs.Prelude.{◌≤◌, ◌↔◌, IsOk};

use std::error::Error;
use std::fmt;

/// Why a handler was not made.
#[derive(Clone, Copy, Debug, PartialEq, Eq)]
pub enum StageRefusal {
    /// Its parameter is out of its range.
    Limit,
}

impl fmt::Display for StageRefusal {
    ghost use Rattle.std.specs.Prelude.{Some, codes};

    ghost output = { λ _. Some (codes "3 Limit") };

    fn fmt<W: fmt::Write>(&self, f: &mut fmt::Formatter<W>) -> fmt::Result {
        write!(f, "3 Limit")
    }
}

impl Error for StageRefusal {}

/// Tests that a handler's parameter is from 1 to its limit.
pub(crate) fn within(parameter: usize, most: usize) -> Result<(), StageRefusal>
    ensures { IsOk result ↔ ((1 ≤ parameter) × (parameter ≤ most)) }
{
    if parameter == 0 || parameter > most {
        return Err(StageRefusal::Limit);
    }
    Ok(())
}
