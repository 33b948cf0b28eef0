//! The inboxes of all executors, and the executors before their first turn.

ghost use Rattle.std.specs.Prelude.{◌≡◌, ◌+◌, ◌<◌, ◌^◌, ◌∷◌, ◌++◌, [], ℕ, length, map, set, slice_get, All, IfOk, OnOk, Some};
ghost use Rattle.pl_exec.specs.Opening.{LaneTable, lanes_in, inbox_view, no_ways, ways_in, CanOpen, CanOpenAll, IsOwn, IsColumn, AreOpened, CanDeal, CanDealAll, HaveWays, Starts, CanStart, IsFirst};
ghost use Rattle.pl_threads.specs.Running.{ExecutorView};

use crate::lanes::{Leaving, WayIn, split_ways, ways_by_target};
use crate::planned::Planned;
use crossbeam_utils::sync::Parker;
use pl_context::Outputs;
use pl_event::Named;
use pl_outbox::{Inbox, NO_WAY, Outbox, Outboxes};
use pl_queue::{Mailbox, OpenRefusal};
use pl_threads::{Core, Executor, OwnNodes};
use pl_words::{Admission, OwnerSeat, SendSeat};
use std::alloc::{AllocError, Global};
use std::marker::Model;
use std::mem;

/// What an executor has of its own inbox.
#[derive(Drop)]
pub(crate) struct OwnEnds<W: Named, M: Mailbox<W>> {
    taker: M::Taker,
    owner: OwnerSeat,
    /// On which the executor rests.
    parker: Parker,
}

impl<W: Named, M: Mailbox<W>> Model for OwnEnds<W, M> {
    ghost use Rattle.pl_exec.specs.Opening.{OwnView};

    ghost Value = { OwnView M.Taker };

    ghost view = { λ ends. record { taker = ends.taker; owner = ends.owner } };
}

/// What executors have of one target: the senders of its mailbox, and the seats of its admission, one of each for each executor
/// that has a way there.
#[derive(Drop)]
pub(crate) struct Column<W: Named, M: Mailbox<W>> {
    /// The executors that have a way there, in order.
    origins: Vec<u16>,
    senders: Vec<M::Sender>,
    seats: Vec<SendSeat>,
}

impl<W: Named, M: Mailbox<W>> Model for Column<W, M> {
    ghost use Rattle.pl_exec.specs.Opening.{ColumnView};

    ghost Value = { ColumnView M.Sender };

    ghost view = { λ c. record { origins = c.origins.items; senders = c.senders.items; seats = c.seats.items } };
}

/// The inbox of one executor, with its own ends and its column: a sender and a seat for each way to it.
fn open<W: Named, M: Mailbox<W> + Drop>(
    alloc: Global,
    ways: Vec<WayIn>,
    capacity: usize,
) -> Result<(Inbox<W, M>, OwnEnds<W, M>, Column<W, M>), AllocError>
    requires some { 0 < length ways.items }
    requires few { length ways.items < 2 ^ 16 }
    requires open { CanOpen capacity (map (λ way. way.lanes) (ways_in ways.items)) }
    ensures own { IfOk result (λ r. IsOwn M.ends (inbox_view r.0) (map (λ way. way.lanes) (ways_in ways.items)) r.1) }
    ensures column { IfOk result (λ r. IsColumn M.ends (inbox_view r.0) (ways_in ways.items) r.2) }
    ensures capacity { IfOk result (λ r. M.ends.capacity_of r.0.mailbox ≡ capacity) }
{
    let (origins, lanes) = split_ways(alloc, ways)?;
    let count = lanes.len() as u16;
    let (mailbox, senders, taker) = match M::open(alloc, lanes, capacity) {
        Ok(opened) => opened,
        Err(OpenRefusal::Memory) => return Err(AllocError),
        Err(OpenRefusal::Limit) => unreachable!(),
    };
    let (admission, seats, owner) = Admission::new(alloc, count)?;
    let (inbox, parker) = Inbox::new(alloc, mailbox, admission)?;
    let own_ends = OwnEnds {
        taker,
        owner,
        parker,
    };
    let column = Column {
        origins,
        senders,
        seats,
    };
    Ok((inbox, own_ends, column))
}

/// For each executor its inbox, what it has of that, and the column of that for all. `lanes` has for each executor the lanes
/// that it writes to others.
///
/// Error: out of memory. Nothing is open then.
pub(crate) fn open_all<W: Named, M: Mailbox<W> + Drop>(
    alloc: Global,
    lanes: Vec<Vec<Leaving>>,
    capacity: usize,
) -> Result<(Vec<Inbox<W, M>>, Vec<OwnEnds<W, M>>, Vec<Column<W, M>>), AllocError>
    requires { CanOpenAll capacity (lanes_in lanes.items) }
    ensures count { IfOk result (λ r. length r.0.items ≡ length (lanes_in lanes.items)) }
    ensures opened { IfOk result (λ r. AreOpened M.ends (lanes_in lanes.items) (map inbox_view r.0.items) r.1.items r.2.items) }
    ensures capacity { IfOk result (λ r. All (λ i. M.ends.capacity_of i.mailbox ≡ capacity) r.0.items) }
{
    let count = lanes.len();
    let mut inboxes = Vec::with_capacity(alloc, count)?;
    let mut ends = Vec::with_capacity(alloc, count)?;
    let mut columns = Vec::with_capacity(alloc, count)?;
    for ways in ways_by_target(alloc, lanes)? {
        let (inbox, own_ends, column) = open::<W, M>(alloc, ways, capacity)?;
        inboxes.push(inbox)?;
        ends.push(own_ends)?;
        columns.push(column)?;
    }
    Ok((inboxes, ends, columns))
}

/// The executors before their first turn, each with its nodes, its own ends and its outboxes, and with the parker of its
/// inbox. Nothing waits, and nothing was taken. The mailboxes have the capacity of the plan. Each work list has a place for
/// each data lane; `places` has by executor and by target how many are reserved for what waits.
pub(crate) fn executors<'a, W: Planned, M: Mailbox<W> + Drop, N: OwnNodes<W> + Drop>(
    alloc: Global,
    inboxes: &'a [Inbox<W, M>],
    ends: Vec<OwnEnds<W, M>>,
    columns: Vec<Column<W, M>>,
    nodes: Vec<N>,
    data_lanes: u16,
    places: &[Vec<u16>],
) -> Result<Vec<(Executor<'a, W, M, N>, Parker)>, AllocError>
    requires few { length inboxes.now < 2 ^ 16 }
    requires capacity { All (λ i. M.ends.capacity_of i.mailbox ≡ W.plan.capacity) inboxes.now }
    requires start { CanStart M.ends N.view_of N.stands (map inbox_view inboxes.now) ends.items columns.items nodes.items data_lanes places.now }
    ensures parts { IfOk result (λ executors. map (λ e. e.0.nodes) executors.items ≡ nodes.items) }
    ensures first { IfOk result (λ executors. (y : ℕ) (e : ExecutorView N) → slice_get (map (λ e. e.0) executors.items) y ≡ Some e → IsFirst y e) }
{
    let mut rows = ways_of_all(alloc, inboxes, columns, places)?;
    let mut executors = Vec::with_capacity(alloc, inboxes.len())?;
    let mut number = 0;
    for (own_ends, nodes) in ends.into_iter().zip(nodes) {
        let ways = rows[number].take(alloc);
        executors.push(executor(alloc, inboxes, number, own_ends, ways, nodes, data_lanes)?)?;
        number += 1;
    }
    Ok(executors)
}

/// An executor before its first turn, with its parker.
fn executor<'a, W: Named, M: Mailbox<W> + Drop, N: OwnNodes<W> + Drop>(
    alloc: Global,
    inboxes: &'a [Inbox<W, M>],
    number: usize,
    own_ends: OwnEnds<W, M>,
    ways: Ways<'a, W, M>,
    nodes: N,
    data_lanes: u16,
) -> Result<(Executor<'a, W, M, N>, Parker), AllocError>
    requires there { number < length inboxes.now }
    requires few { length inboxes.now < 2 ^ 16 }
    requires starts { Starts M.ends N.view_of N.stands (map inbox_view inboxes.now) number own_ends ways nodes data_lanes }
    ensures nodes { IfOk result (λ e. e.0.nodes ≡ nodes) }
    ensures first { IfOk result (λ e. IsFirst number e.0) }
{
    let OwnEnds {
        taker,
        owner,
        parker,
    } = own_ends;
    let Ways {
        ways,
        outboxes,
        places,
        ..
    } = ways;
    let core = Core::of(
        number,
        nodes,
        Outboxes::new(alloc, inboxes, ways, outboxes, places.as_slice())?,
        Outputs::new(alloc, data_lanes)?,
    );
    Ok((Executor::new(core, &inboxes[number], taker, owner), parker))
}

/// The ways of an executor, in the order of their targets, itself among them.
#[derive(Drop)]
struct Ways<'a, W: Named, M: Mailbox<W> + Drop> {
    /// Those of all executors, by number: by these its type has the lifetime of what its outboxes borrow.
    inboxes: &'a [Inbox<W, M>],
    /// By executor the number of the way to it, or `NO_WAY`.
    ways: Vec<u16>,
    outboxes: Vec<Outbox<'a, W, M>>,
    /// By way the places that are reserved for what waits for it.
    places: Vec<u16>,
}

impl<'a, W: Named, M: Mailbox<W> + Drop> Model for Ways<'a, W, M> {
    ghost use Rattle.pl_exec.specs.Opening.{WaysView};

    ghost Value = { WaysView };

    ghost view = { λ w. record { ways = w.ways.items; outboxes = w.outboxes.items; places = w.places.items } };
}

impl<'a, W: Named, M: Mailbox<W> + Drop> Ways<'a, W, M> {
    /// None yet. `inboxes` are those of all executors, by number.
    fn none(alloc: Global, inboxes: &'a [Inbox<W, M>]) -> Result<Self, AllocError>
        ensures { IfOk result (λ ways. ways ≡ no_ways (length inboxes.now)) }
    {
        Ok(Ways {
            inboxes,
            ways: vec![in alloc; NO_WAY; inboxes.len()]?,
            outboxes: Vec::new(alloc),
            places: Vec::new(alloc),
        })
    }

    /// Takes these. None are left. An iterator over all could not be zipped with others, for the lifetime that it has.
    fn take(&mut self, alloc: Global) -> Self
        ensures { result ≡ self.old }
    {
        Ways {
            inboxes: self.inboxes,
            ways: mem::replace(&mut self.ways, Vec::new(alloc)),
            outboxes: mem::replace(&mut self.outboxes, Vec::new(alloc)),
            places: mem::replace(&mut self.places, Vec::new(alloc)),
        }
    }

    /// A way to a target, with so many places.
    fn add(
        &mut self,
        target: usize,
        outbox: Outbox<'a, W, M>,
        places: u16,
    ) -> Result<(), AllocError>
        requires there { target < length self.old.ways }
        requires few { length self.old.outboxes < 2 ^ 16 }
        ensures ways { OnOk result (self.new.ways ≡ set self.old.ways target (length self.old.outboxes)) }
        ensures outboxes { OnOk result (self.new.outboxes ≡ self.old.outboxes ++ outbox.entry ∷ []) }
        ensures places { OnOk result (self.new.places ≡ self.old.places ++ places ∷ []) }
    {
        self.ways[target] = self.outboxes.len() as u16;
        self.outboxes.push(outbox)?;
        self.places.push(places)?;
        Ok(())
    }
}

/// The ways of all executors, in the order of these: one walk over the columns, whose senders and seats are given to them.
/// `places` has by executor and by target how many are reserved there.
fn ways_of_all<'a, W: Named, M: Mailbox<W> + Drop>(
    alloc: Global,
    inboxes: &'a [Inbox<W, M>],
    columns: Vec<Column<W, M>>,
    places: &[Vec<u16>],
) -> Result<Vec<Ways<'a, W, M>>, AllocError>
    requires few { length inboxes.now < 2 ^ 16 }
    requires deal { (lanes : LaneTable) × CanDealAll M.ends lanes (map inbox_view inboxes.now) columns.items places.now }
    ensures count { IfOk result (λ rows. length rows.items ≡ length inboxes.now) }
    ensures ways { IfOk result (λ rows. (lanes : LaneTable) → CanDealAll M.ends lanes (map inbox_view inboxes.now) columns.items places.now → HaveWays lanes places.now (length lanes) rows.items) }
{
    let mut rows = no_ways(alloc, inboxes)?;
    let mut target = 0;
    for column in columns {
        deal(&mut rows, inboxes, target, column, places)?;
        target += 1;
    }
    Ok(rows)
}

/// For each executor no way yet.
fn no_ways<'a, W: Named, M: Mailbox<W> + Drop>(
    alloc: Global,
    inboxes: &'a [Inbox<W, M>],
) -> Result<Vec<Ways<'a, W, M>>, AllocError>
    ensures count { IfOk result (λ rows. length rows.items ≡ length inboxes.now) }
    ensures none { IfOk result (λ rows. All (λ ways. ways ≡ no_ways (length inboxes.now)) rows.items) }
{
    let mut rows = Vec::with_capacity(alloc, inboxes.len())?;
    for _inbox in inboxes {
        rows.push(Ways::none(alloc, inboxes)?)?;
    }
    Ok(rows)
}

/// Gives each executor that has a way to this target its sender and its seat there.
fn deal<'a, W: Named, M: Mailbox<W> + Drop>(
    rows: &mut Vec<Ways<'a, W, M>>,
    inboxes: &'a [Inbox<W, M>],
    target: usize,
    column: Column<W, M>,
    places: &[Vec<u16>],
) -> Result<(), AllocError>
    requires few { length inboxes.now < 2 ^ 16 }
    requires deal { (lanes : LaneTable) × CanDeal M.ends lanes (map inbox_view inboxes.now) target column places.now rows.old.items }
    ensures count { OnOk result (length rows.new.items ≡ length rows.old.items) }
    ensures ways { OnOk result ((lanes : LaneTable) → CanDeal M.ends lanes (map inbox_view inboxes.now) target column places.now rows.old.items → HaveWays lanes places.now (target + 1) rows.new.items) }
{
    let Column {
        origins,
        senders,
        seats,
    } = column;
    let inbox = &inboxes[target];
    for ((origin, sender), seat) in origins.into_iter().zip(senders).zip(seats) {
        let origin = origin as usize;
        let reserved = places[origin][target];
        rows[origin].add(target, Outbox::new(inbox, sender, seat), reserved)?;
    }
    Ok(())
}
