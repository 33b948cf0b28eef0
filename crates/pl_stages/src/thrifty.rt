//! Handlers that make no more than they take, so that whatever comes in, few items are under way.

ghost use Rattle.std.specs.Prelude.{◌≤◌};
ghost use Rattle.pl_event.specs.declared.events.Event.{Event};
ghost use Rattle.pl_event.specs.declared.either.Either.TheVariants.{Left, Right};
ghost use Rattle.pl_stages.specs.Counts.{IsThrifty, event_weight};
ghost use Rattle.pl_stages.specs.HandlerThrift.{handler-thrifty};
ghost use Rattle.pl_stages.specs.Thrift.{mapping_up-thrifty, mapping_down-thrifty};

use crate::handlers::Handler;
use pl_event::{BareStage, Either, Fused, MapDown, MapUp, Mapping, Stage};

/// A handler that makes no more than it takes (`IsThrifty` of `Counts`): upwards no more weight, one for each event and
/// one for each byte that is read; downwards at most two events for each one, and an outbound handler at most one.
///
/// `pl_world`'s `World::of_thrifty` makes a world of such handlers. Each built-in handler is one, and so is an [`Either`]
/// of two of them. A handler of one's own says it in one line:
///
/// - of a [`BareStage`], by [`ThriftyBare`];
/// - of a [`Mapping`] upwards, by [`ThriftyMapping`]; downwards every mapping is thrifty;
/// - of a [`Stage`], by this trait.
///
/// There is no function to implement: the line is a proof, which the check reads. The lemma `thrifty` of
/// `Rattle.pl_stages.specs.Thrift` makes it of what the handler makes of one event.
pub trait Thrifty: Stage {
    /// It makes no more than it takes.
    ghost thrifty: { (stage : Self) → IsThrifty (Self.meaning stage) };
}

/// A [`BareStage`] that makes no more than it takes: [`Fused`] makes a [`Thrifty`] handler of it.
pub trait ThriftyBare: BareStage {
    /// It makes no more than it takes.
    ghost thrifty: { (stage : Self) → IsThrifty (Self.meaning stage) };
}

/// A [`Mapping`] that makes no longer bytes of any: [`MapUp`] makes a [`Thrifty`] handler of it.
pub trait ThriftyMapping: Mapping {
    /// What it makes of an event weighs no more than that event.
    ghost thrifty: { (mapping : Self) (event : Event) → event_weight (Self.made_of mapping event) ≤ event_weight event };
}

impl Thrifty for Handler {
    ghost thrifty = { handler-thrifty };
}

impl<A: Thrifty, B: Thrifty> Thrifty for Either<A, B> {
    ghost thrifty = { elim [ Left stage ↦ A.thrifty stage | Right stage ↦ B.thrifty stage ] };
}

impl<S: ThriftyBare> Thrifty for Fused<S> {
    ghost thrifty = { λ s. S.thrifty _ };
}

impl<M: ThriftyMapping> Thrifty for MapUp<M> {
    ghost thrifty = { λ s. mapping_up-thrifty _ (M.thrifty _) };
}

impl<M: Mapping> Thrifty for MapDown<M> {
    ghost thrifty = { λ s. mapping_down-thrifty _ };
}
