//! Senders and the taker, over either queue: how they are made, what the taker does, and how they end.

ghost use Rattle.std.specs.Prelude.{◌≡◌, ◌++◌, ◌+◌, ◌<◌, ◌^◌, ℕ, true, List, Some, None, map, vec_len, unwrap_or, IfOk, IfErr, MatchOption};
ghost use Rattle.pl_event.specs.declared.envelopes.Lane.{Lane};
ghost use Rattle.pl_event.specs.Worlds.{FitsWorld};
ghost use Rattle.pl_queue.specs.declared.mailbox.OpenRefusal.TheVariants.{Memory};
ghost use Rattle.pl_queue.specs.Limits.{opening_fault};
ghost use Rattle.pl_queue.specs.Positions.{ArePositions};
ghost use Rattle.pl_queue.specs.Rule.{TakerSees, WasOnce, Each};
ghost use Rattle.pl_queue.specs.Views.{next_of, has_lane, after_take, dealing, view_of as the_view_of, newcomer, no_sends, fresh_sends, fresh_takes, lanes_of_counts};
ghost use Rattle.pl_queue.specs.Left.{held_of, send_counts_of, Apart, lanes_of_senders, KnowsPlaces, AreAll, IsEmptying, IsAllLeft};

use crate::counts::{all_counts, is_within, set_next};
use crate::left::{LaneLeft, Left, entries, put};
use crate::mailbox::OpenRefusal;
use crate::positions::Positions;
use crate::queues::RuledQueue;
use crate::rule::Dealt;
use crate::views::TakeCount;
use pl_event::{Envelope, Lane, Named};
use std::alloc::{AllocError, Global};
use std::marker::{Brand, PhantomData};
use std::sync::Wait;

/// A sender: a pass. Its numbers are in contracts alone.
#[derive(Drop)]
pub struct Sender<W, P: Drop> {
    pub(crate) pass: P,
    of: PhantomData<W>,
}

/// A taker: a pass, and its next numbers.
#[derive(Drop)]
pub struct Taker<W, P: Drop> {
    pub(crate) pass: P,
    /// Its next number of each lane, in the order of `open`.
    counts: Vec<TakeCount>,
    /// Where the count of each lane stands.
    positions: Positions,
    of: PhantomData<W>,
}

// Makes a sender of these lanes.
fn deal<W: Named, Q: RuledQueue<W>, L: Dealt>(
    queue: &Q,
    pass: &mut Q::Pass,
    lanes: &[Lane],
) -> Sender<W, Q::Pass>
    requires picked { L.lanes ≡ lanes.now }
    requires pass { Q.is_pass queue.now pass.old × ((Q.view_of pass.old).taker ≡ true) }
    requires fresh { (l : Lane) → has_lane l lanes.now ≡ true → next_of l (Q.view_of pass.old).takes.counts ≡ None }
    ensures pass { Q.is_pass queue.now pass.new × (Q.view_of pass.new ≡ dealing lanes.now (Q.view_of pass.old)) }
    ensures sender { Q.is_pass queue.now result.pass × ((Q.view_of result.pass).sends ≡ fresh_sends lanes.now) }
{
    Sender {
        pass: queue.deal::<L>(pass),
        of: PhantomData,
    }
}

// Makes a sender of each list of lanes.
fn deal_all<W: Named, Q: RuledQueue<W>>(
    alloc: Global,
    queue: &Q,
    pass: &mut Q::Pass,
    lanes: &[Vec<Lane>],
) -> Result<Vec<Sender<W, Q::Pass>>, AllocError>
    requires pass { Q.is_pass queue.now pass.old × (Q.view_of pass.old ≡ newcomer) }
    requires apart { Apart (lanes_of_senders (map (λ v. v.items) lanes.now)) }
    ensures pass { IfOk result (λ _. Q.is_pass queue.now pass.new × (Q.view_of pass.new ≡ the_view_of true no_sends (fresh_takes (lanes_of_senders (map (λ v. v.items) lanes.now))))) }
    ensures senders { IfOk result (λ v. Each (λ s. Q.is_pass queue.now s.pass) v.items × (map (λ s. (Q.view_of s.pass).sends) v.items ≡ map (λ v. fresh_sends v.items) lanes.now)) }
{
    let mut senders = Vec::new(alloc);
    for own in lanes {
        let sender = deal::<W, Q, Brand>(queue, pass, own.as_slice());
        senders.push(sender)?;
    }
    Ok(senders)
}

/// A queue, with a sender for each list of lanes, and its taker.
pub fn open_over<W: Named, Q: RuledQueue<W> + Drop>(
    alloc: Global,
    lanes: Vec<Vec<Lane>>,
    capacity: usize,
) -> Result<(Q, Vec<Sender<W, Q::Pass>>, Taker<W, Q::Pass>), OpenRefusal>
    requires apart { Apart (lanes_of_senders (map (λ v. v.items) lanes.items)) }
    ensures refused { IfErr result (λ refusal. refusal ≡ unwrap_or (opening_fault (map (λ v. v.items) lanes.items) capacity) Memory) }
    ensures opened { IfOk result (λ r. (opening_fault (map (λ v. v.items) lanes.items) capacity ≡ None) × (Q.most r.0 ≡ capacity)) }
    ensures senders { IfOk result (λ r. Each (λ s. Q.is_pass r.0 s.pass) r.1.items × (map (λ s. (Q.view_of s.pass).sends) r.1.items ≡ map (λ v. fresh_sends v.items) lanes.items)) }
    ensures taker { IfOk result (λ r. (Q.is_pass r.0 r.2.pass × KnowsPlaces (Q.view_of r.2.pass) r.2.counts.items r.2.positions.rows.items) × ((Q.view_of r.2.pass).takes ≡ fresh_takes (lanes_of_senders (map (λ v. v.items) lanes.items)))) }
{
    if !is_within(lanes.as_slice(), capacity) {
        return Err(OpenRefusal::Limit);
    }
    let (queue, mut pass) = Q::make(alloc, capacity)?;
    let counts = all_counts(alloc, lanes.as_slice())?;
    let positions = Positions::new(alloc, counts.as_slice())?;
    let senders = deal_all::<W, Q>(alloc, &queue, &mut pass, lanes.as_slice())?;
    let taker = Taker {
        pass,
        counts,
        positions,
        of: PhantomData,
    };
    Ok((queue, senders, taker))
}

/// Takes the front.
pub fn take_front<W: Named, Q: RuledQueue<W>, R: Wait>(
    rt: &R,
    queue: &Q,
    taker: &mut Taker<W, Q::Pass>,
) -> Option<Envelope>
    requires taker { Q.is_pass queue.now taker.old.pass × KnowsPlaces (Q.view_of taker.old.pass) taker.old.counts.items taker.old.positions.rows.items }
    ensures taker { Q.is_pass queue.now taker.new.pass × KnowsPlaces (Q.view_of taker.new.pass) taker.new.counts.items taker.new.positions.rows.items }
    ensures taken { MatchOption result
        (((Q.view_of taker.new.pass).takes ≡ (Q.view_of taker.old.pass).takes) × WasOnce 0 (TakerSees W.world (Q.view_of taker.old.pass).takes))
        (λ x. (next_of x.lane (Q.view_of taker.old.pass).takes.counts ≡ Some x.number) × (x.number < 2 ^ 32) × FitsWorld W.world x × ((Q.view_of taker.new.pass).takes ≡ after_take (Q.view_of taker.old.pass).takes x)) }
{
    let envelope = queue.pop::<R>(rt, &mut taker.pass)?;
    set_next(
        &mut taker.counts,
        &taker.positions,
        envelope.lane,
        envelope.number + 1,
    );
    Some(envelope)
}

// Takes in what all senders know.
fn unite_all<W: Named, Q: RuledQueue<W>>(
    queue: &Q,
    pass: &mut Q::Pass,
    senders: Vec<Sender<W, Q::Pass>>,
)
    requires pass { Q.is_pass queue.now pass.old }
    requires senders { Each (λ s. Q.is_pass queue.now s.pass) senders.items }
    ensures pass { Q.is_pass queue.now pass.new }
    ensures same { ((Q.view_of pass.new).taker ≡ (Q.view_of pass.old).taker) × ((Q.view_of pass.new).takes ≡ (Q.view_of pass.old).takes) }
    ensures send_counts { (Q.view_of pass.new).sends.send_counts ≡ (Q.view_of pass.old).sends.send_counts ++ send_counts_of (map (λ s. (Q.view_of s.pass).sends) senders.items) }
{
    for sender in senders {
        let Sender {
            pass: theirs,
            of: _,
        } = sender;
        queue.unite(pass, theirs);
    }
}

// Takes what is left.
fn empty<W: Named, Q: RuledQueue<W>, R: Wait>(
    rt: &R,
    queue: &Q,
    pass: &mut Q::Pass,
    all: &mut Vec<LaneLeft>,
    positions: &Positions,
) -> Result<(), AllocError>
    requires pass { Q.is_pass queue.now pass.old }
    requires emptying { IsEmptying W.world (Q.view_of pass.old).sends.send_counts (Q.view_of pass.old).takes.counts (Q.view_of pass.old) (map held_of all.old.items) }
    requires apart { Apart (lanes_of_counts (Q.view_of pass.old).takes.counts) }
    requires positions { ArePositions positions.now.rows.items 0 (lanes_of_counts (Q.view_of pass.old).takes.counts) }
    requires lanes { AreAll (Q.view_of pass.old).sends.send_counts (Q.view_of pass.old).takes.counts }
    ensures { IfOk result (λ _. IsAllLeft W.world (Q.view_of pass.old).sends.send_counts (Q.view_of pass.old).takes.counts (map held_of all.new.items)) }
{
    for _ in rt.forever() {
        match queue.pop::<R>(rt, pass) {
            Some(envelope) => put(all, positions, envelope)?,
            None => return Ok(()),
        }
    }
    unreachable!()
}

/// What is left, given all senders and the taker.
pub fn finish_over<W: Named, Q: RuledQueue<W>, R: Wait>(
    rt: &R,
    alloc: Global,
    queue: &Q,
    senders: Vec<Sender<W, Q::Pass>>,
    taker: Taker<W, Q::Pass>,
) -> Result<Left, AllocError>
    requires senders { Each (λ s. Q.is_pass queue.now s.pass) senders.items }
    requires taker { Q.is_pass queue.now taker.pass × KnowsPlaces (Q.view_of taker.pass) taker.counts.items taker.positions.rows.items }
    requires all { AreAll (send_counts_of (map (λ s. (Q.view_of s.pass).sends) senders.items)) (Q.view_of taker.pass).takes.counts }
    ensures left { IfOk result (λ left. IsAllLeft W.world (send_counts_of (map (λ s. (Q.view_of s.pass).sends) senders.items)) (Q.view_of taker.pass).takes.counts (map held_of left.lanes.items)) }
{
    let Taker {
        mut pass,
        counts,
        positions,
        of: _,
    } = taker;
    let mut all = entries(alloc, counts.as_slice())?;
    unite_all::<W, Q>(queue, &mut pass, senders);
    empty::<W, Q, R>(rt, queue, &mut pass, &mut all, &positions)?;
    Ok(Left { lanes: all })
}
