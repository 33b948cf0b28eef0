//! The queue rule, and what each kind of step tells.

ghost use Rattle.std.specs.Prelude.{◌≡◌};
ghost use Rattle.pl_queue.specs.Rule.{Keeps, IsTakersNext, SenderSees, BothSee};
ghost use Rattle.pl_queue.specs.Views.{newcomer, pass_offered, taken, dealing, dealt, pass_joined, spent};

use crate::views::PassView;
use crossbeam_queue::protocol::{Join, Lesson, Outcome, Protocol, Split};
use pl_event::{Envelope, Lane, Named};
use std::collections::LinkedList;
use std::marker::{Brand, PhantomData};

/// The queue rule under a world.
pub struct LanesInTurn<W>(PhantomData<W>);

impl<W: Named> Protocol<Envelope, PassView> for LanesInTurn<W> {
    ghost holds = { λ items views. Keeps W.world items views };

    ghost first = { newcomer };
}

/// A push, by a sender.
pub struct Pushed<W>(PhantomData<W>);

impl<W: Named> Outcome<Envelope, PassView> for Pushed<W> {
    ghost then = { λ v x w. w ≡ pass_offered v x };
}

impl<W: Named> Lesson<Envelope, PassView> for Pushed<W> {
    ghost fact = { λ v items. SenderSees W.world v.sends items };
}

/// A pop, by the taker.
pub struct Popped<W>(PhantomData<W>);

impl<W: Named> Outcome<Envelope, PassView> for Popped<W> {
    ghost then = { λ v x w. IsTakersNext W.world v x × (w ≡ taken v x) };
}

impl<W: Named> Lesson<Envelope, PassView> for Popped<W> {
    ghost fact = { λ v items. BothSee W.world v items };
}

/// The lanes of one sender, which a caller picks.
pub trait Dealt {
    ghost use Rattle.std.specs.Prelude.{List};
    ghost use Rattle.pl_event.specs.declared.envelopes.Lane.{Lane};

    ghost lanes: { List Lane };
}

impl Dealt for Brand {
    ghost use Rattle.std.specs.Prelude.{[]};

    ghost lanes = { [] };
}

/// The taker makes a sender.
pub struct Deal<L>(PhantomData<L>);

impl<L: Dealt> Split<PassView> for Deal<L> {
    ghost left = { λ v. dealing L.lanes v };

    ghost right = { λ v. dealt L.lanes };
}

/// The taker takes in what a sender knows.
pub struct Unite;

impl Join<PassView> for Unite {
    ghost both = { pass_joined };

    ghost spent = { spent };
}
