//! A handler of a pipeline: a stage under its name, perhaps in a group.

ghost use Rattle.std.specs.Prelude.{◌≡◌, IfOk, IfErr};
ghost use Rattle.std.specs.Option.{option_copied};
ghost use Rattle.std.specs.Str.{bytes_eq};
ghost use Rattle.pl_event.specs.Paths.{is_turn};
ghost use Rattle.pl_build.specs.Names.{is_among};
ghost use Rattle.pl_build.specs.declared.faults.BuildFault.TheVariants as fault;
ghost use Rattle.pl_build.specs.Pipelines.{handler_of, is_inbound, is_outbound_stage};

use crate::faults::BuildFault;
use crate::names::{has_text, kept};
use pl_event::{ByteString, Stage};
use std::alloc::{AllocError, Global};

/// A handler of a pipeline: a stage under its name, in a group of executors or in none.
#[derive(Drop)]
pub struct NamedStage<S> {
    pub(crate) name: ByteString,
    pub(crate) group: Option<ByteString>,
    pub(crate) stage: S,
}

/// What a refused add returns. It prints by its fault, since a stage need not have a `Debug`.
#[derive(Drop)]
#[derive_where(Debug)]
pub struct Unadded<S> {
    pub fault: BuildFault,
    #[derive_where(skip)]
    pub stage: S,
}

/// What a call that adds a handler gives: nothing, or the refused stage with its fault.
pub type Inserted<S> = Result<(), Unadded<S>>;

impl<S: Drop> From<Unadded<S>> for BuildFault {
    ghost from_gives = { λ unadded e. e ≡ unadded.fault };

    fn from(unadded: Unadded<S>) -> BuildFault {
        unadded.fault
    }
}

impl<S> NamedStage<S> {
    /// A handler that keeps copies of its names. An `Err` says that memory ran out, and hands the stage back.
    pub(crate) fn new(
        alloc: Global,
        name: &str,
        group: Option<&str>,
        stage: S,
    ) -> Result<Self, Unadded<S>>
        ensures ok { IfOk result (λ handler. handler ≡ handler_of name.now (option_copied group.entry) stage) }
        ensures err { IfErr result (λ unadded. unadded ≡ record { fault = fault.Memory; stage = stage }) }
    {
        match kept_names(alloc, name, group) {
            Ok(names) => Ok(NamedStage {
                name: names.0,
                group: names.1,
                stage,
            }),
            Err(_) => Err(Unadded {
                fault: BuildFault::Memory,
                stage,
            }),
        }
    }

    /// Whether it has this name.
    pub(crate) fn is_named(&self, name: &str) -> bool
        ensures { result ≡ bytes_eq self.now.name name.now }
    {
        has_text(&self.name, name)
    }

    /// Whether it is in the group of this name.
    pub(crate) fn is_in(&self, group: &ByteString) -> bool
        ensures { result ≡ is_among self.now.group group.now }
    {
        match &self.group {
            Some(own) => *own == *group,
            None => false,
        }
    }
}

impl<S: Stage> NamedStage<S> {
    /// Whether inbound events visit it. The turn is one of these.
    pub(crate) fn is_inbound(&self) -> bool
        ensures { result ≡ is_inbound S.meaning self.now }
    {
        !self.is_outbound()
    }

    /// Whether outbound events visit it.
    pub(crate) fn is_outbound(&self) -> bool
        ensures { result ≡ is_outbound_stage S.meaning self.now }
    {
        self.stage.direction().is_outbound()
    }

    /// Whether it is the turn.
    pub(crate) fn is_turn(&self) -> bool
        ensures { result ≡ is_turn (S.meaning self.now.stage).direction }
    {
        self.stage.direction().is_turn()
    }
}

/// Copies of the name of a handler and of its group, to keep.
fn kept_names(
    alloc: Global,
    name: &str,
    group: Option<&str>,
) -> Result<(ByteString, Option<ByteString>), AllocError>
    ensures { IfOk result (λ names. (names.0 ≡ name.now) × (names.1 ≡ option_copied group.entry)) }
{
    let name = kept(alloc, name)?;
    match group {
        Some(group) => Ok((name, Some(kept(alloc, group)?))),
        None => Ok((name, None)),
    }
}
