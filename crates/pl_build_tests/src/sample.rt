//! A stage that makes nothing, pipelines of it, and what a refused call says.

ghost use Rattle.std.specs.Prelude.{◌≡◌, [], false, refl};
ghost use Rattle.pl_build_tests.specs.declared.sample.Small.{Small};

use pl_build::{BuildFault, Groups, Inserted, PipelineBuilder, Placed};
use pl_event::{Direction, Event, Stage, Stepped, Turned};
use std::alloc::Global;
use std::process::Abort;
use std::test::Fail;

/// A stage that makes nothing.
#[derive(Drop)]
pub(crate) struct Small {
    direction: Direction,
    pub(crate) number: u8,
}

impl Stage for Small {
    ghost meaning = { λ s. record { direction = s.direction; up = λ _ _. []; down = λ _ _. []; ended = λ _. false } };

    ghost stands_after = { λ _ _. Unit {0} };

    ghost is_spent = { λ _. false };

    fn direction(&self) -> Direction {
        self.direction
    }

    fn step(&mut self, event: Event, _up: &mut Vec<Event>, _down: &mut Vec<Event>) -> Stepped {
        drop(event);
        Ok(Turned::Open)
    }

    ghost lawful = { λ s. Prim.search };
}

/// An inbound stage with this number.
pub(crate) fn inbound(number: u8) -> Small {
    Small {
        direction: Direction::Inbound,
        number,
    }
}

/// An outbound stage with this number.
pub(crate) fn outbound(number: u8) -> Small {
    Small {
        direction: Direction::Outbound,
        number,
    }
}

/// A turn with this number.
pub(crate) fn turn(number: u8) -> Small {
    Small {
        direction: Direction::Turn,
        number,
    }
}

/// Why an add was refused, without the stage that it hands back.
pub(crate) fn fault_of(answer: Inserted<Small>) -> Result<(), BuildFault> {
    Ok(answer?)
}

/// Builds, and says why it is refused without the builder that it hands back.
pub(crate) fn built(
    builder: PipelineBuilder<Small>,
    groups: &mut Groups,
) -> Result<Placed<Small>, BuildFault> {
    Ok(builder.build(groups)?)
}

/// Builds, asserts that it is refused so, and gives the builder back.
pub(crate) fn refused(
    rt: &impl Abort,
    builder: PipelineBuilder<Small>,
    groups: &mut Groups,
    fault: BuildFault,
) -> Result<PipelineBuilder<Small>, Fail> {
    match builder.build(groups) {
        Ok(_) => panic!(rt; "it is built"),
        Err(unbuilt) => {
            assert_eq!(rt; unbuilt.fault, fault);
            Ok(unbuilt.builder)
        }
    }
}

/// The handlers of the line protocol, two of them in a group.
pub(crate) fn line_protocol(
    alloc: Global,
    group: Option<&str>,
) -> Result<PipelineBuilder<Small>, BuildFault> {
    let mut builder = PipelineBuilder::new(alloc);
    builder.add_last("lines", None, inbound(1))?;
    builder.add_last("decode", group, inbound(2))?;
    builder.add_last("lineend", None, outbound(3))?;
    builder.add_last("encode", None, outbound(4))?;
    builder.add_last("service", group, turn(5))?;
    Ok(builder)
}

/// Asserts that a chain has the stages with these numbers.
pub(crate) fn assert_numbers(rt: &impl Abort, chain: &[Small], want: &[u8]) {
    assert_eq!(rt; chain.len(), want.len());
    for (stage, number) in chain.iter().zip(want) {
        assert_eq!(rt; stage.number, *number);
    }
}

/// So many handlers are inbound, and outbound, and the turn is at this hop.
pub(crate) fn assert_counts(rt: &impl Abort, placed: &Placed<Small>, counts: (u16, u16, usize)) {
    assert_eq!(rt;
        (placed.inbound(), placed.outbound(), placed.turn()),
        counts
    );
}

/// The two chains have the stages with these numbers.
pub(crate) fn assert_chains(rt: &impl Abort, placed: Placed<Small>, up: &[u8], down: &[u8]) {
    let (inbound, outbound) = placed.into_chains();
    assert_numbers(rt, inbound.as_slice(), up);
    assert_numbers(rt, outbound.as_slice(), down);
}
