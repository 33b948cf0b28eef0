//! A stage that is one of two, so that handlers of several kinds stand in one pipeline.

ghost use Rattle.pl_event.specs.declared.either.Either.TheVariants.{Left, Right};

use crate::events::Event;
use crate::stages::{Changed, Direction, Stage, Stepped};

/// A stage of one kind or of another. It means what the stage inside means, and is spent when that is.
///
/// A pipeline has stages of one type: with `Either<A, B>` it has handlers of two kinds, with `Either<A, Either<B, C>>` of
/// three.
#[derive(Debug, Drop)]
pub enum Either<A, B> {
    Left(A),
    Right(B),
}

impl<A: Stage, B: Stage> Stage for Either<A, B> {
    ghost meaning = { elim [ Left stage ↦ A.meaning stage | Right stage ↦ B.meaning stage ] };

    ghost stands_after = { elim [ Left stage ↦ A.stands_after stage | Right stage ↦ B.stands_after stage ] };

    ghost is_spent = { elim [ Left stage ↦ A.is_spent stage | Right stage ↦ B.is_spent stage ] };

    fn direction(&self) -> Direction {
        match self {
            Either::Left(stage) => stage.direction(),
            Either::Right(stage) => stage.direction(),
        }
    }

    fn step(&mut self, event: Event, up: &mut Vec<Event>, down: &mut Vec<Event>) -> Stepped {
        match self {
            Either::Left(stage) => stage.step(event, up, down),
            Either::Right(stage) => stage.step(event, up, down),
        }
    }

    fn change(&mut self, event: &mut Event, down: &mut Vec<Event>) -> Changed {
        match self {
            Either::Left(stage) => stage.change(event, down),
            Either::Right(stage) => stage.change(event, down),
        }
    }

    ghost lawful = { elim [ Left stage ↦ A.lawful stage | Right stage ↦ B.lawful stage ] };
}
