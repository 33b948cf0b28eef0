//! The nodes of all channels, each at its executor.

ghost use Rattle.std.specs.Prelude.{◌≡◌, ◌<◌, ◌^◌, ◌∷◌, ◌++◌, [], All, cond, is_some, length, map, not, IfOk, OnOk};
ghost use Rattle.std.specs.List.{range_with_len};
ghost use Rattle.pl_part.specs.Shares.{only_if};
ghost use Rattle.pl_exec.specs.ChannelRows.{IsChannelRow, row_position};
ghost use Rattle.pl_exec.specs.Sharing.{AreNoted, AreRests, AreShared, HasShares, IsNoted, IsNotedAt, Gets, channels_on, rows_in};

use crate::lanes::empty_lists;
use crate::nodes::ExecutorNodes;
use crate::words::{Seats, Words};
use pl_event::Stage;
use pl_head::Transport;
use pl_part::{ChannelPart, take_where};
use std::alloc::{AllocError, Global};

/// The nodes of these channels at their executors: each has its shares of the channels in its row, and the seats of those
/// whose heads it has, where there are some.
pub(crate) fn shares<'a, S: Stage, T: Transport>(
    alloc: Global,
    words: &'a Words,
    seats: Vec<Option<Seats>>,
    parts: Vec<ChannelPart<S, T>>,
    rows: Vec<Vec<usize>>,
) -> Result<Vec<ExecutorNodes<'a, S, T>>, AllocError>
    requires seats { length seats.items ≡ length parts.items }
    requires few { length parts.items < 2 ^ 8 }
    requires rows { All (IsChannelRow (length parts.items)) (rows_in rows.items) }
    ensures { IfOk result (λ all. AreShared S.meaning S.stands_after T.state parts.items words.now seats.items (rows_in rows.items) all.items) }
{
    let mut left = parts;
    let mut seats = seats;
    let mut all = Vec::with_capacity(alloc, rows.len())?;
    for here in rows {
        let number = all.len();
        all.push(nodes_on(alloc, words, number, here, &mut left, &mut seats)?)?;
    }
    Ok(all)
}

/// The nodes of an executor: its shares of the channels in this row, with the seats of their heads, out of what is left.
fn nodes_on<'a, S: Stage, T: Transport>(
    alloc: Global,
    words: &'a Words,
    number: usize,
    here: Vec<usize>,
    left: &mut Vec<ChannelPart<S, T>>,
    seats: &mut Vec<Option<Seats>>,
) -> Result<ExecutorNodes<'a, S, T>, AllocError>
    requires row { IsChannelRow (length left.old.items) here.items }
    requires few { length left.old.items < 2 ^ 8 }
    requires seats { length seats.old.items ≡ length left.old.items }
    ensures shares { IfOk result (λ nodes. HasShares S.meaning S.stands_after T.state left.old.items words.now seats.old.items number here.items nodes) }
    ensures rests { OnOk result (AreRests number left.old.items seats.old.items left.new.items seats.new.items) }
{
    let positions = positions(alloc, left.len(), &here)?;
    let mut nodes = ExecutorNodes {
        number,
        parts: Vec::with_capacity(alloc, here.len())?,
        seats: Vec::with_capacity(alloc, here.len())?,
        here,
        heads: Vec::new(alloc),
        positions,
        was_refused: false,
        words,
    };
    for position in 0..nodes.here.len() {
        let channel = nodes.here[position];
        let share = left[channel].take_share(alloc, number)?;
        add_share(&mut nodes, share, &mut seats[channel])?;
    }
    Ok(nodes)
}

/// By channel its position in a row; how many the row has, where it is none of these.
fn positions(alloc: Global, channels: usize, row: &[usize]) -> Result<Vec<u8>, AllocError>
    requires row { IsChannelRow channels row.now }
    requires few { channels < 2 ^ 8 }
    ensures { IfOk result (λ positions. positions.items ≡ map (row_position row.now) (range_with_len 0 channels)) }
{
    let mut positions = vec![in alloc; row.len() as u8; channels]?;
    for position in 0..row.len() {
        positions[row[position]] = position as u8;
    }
    Ok(positions)
}

/// One channel more, which is one of its own where the head is among its nodes. It takes the seats then.
fn add_share<S: Stage, T: Transport>(
    nodes: &mut ExecutorNodes<'_, S, T>,
    share: ChannelPart<S, T>,
    seats: &mut Option<Seats>,
) -> Result<(), AllocError>
    ensures got { OnOk result (Gets nodes.old share seats.old nodes.new) }
    ensures left { OnOk result (seats.new ≡ only_if (not (is_some share.head)) seats.old) }
{
    let has_head = share.head().is_some();
    note_if(&mut nodes.heads, nodes.parts.len(), has_head)?;
    nodes.seats.push(take_where(seats, has_head))?;
    nodes.parts.push(share)?;
    Ok(())
}

/// Notes a position where it is wanted. It asks by itself, so that what is noted beside it goes one way.
fn note_if(heads: &mut Vec<usize>, position: usize, wanted: bool) -> Result<(), AllocError>
    ensures { OnOk result (heads.new.items ≡ heads.old.items ++ cond wanted (position ∷ []) []) }
{
    if wanted {
        heads.push(position)?;
    }
    Ok(())
}

/// For each of so many executors the channels that have a node on it, in order: one walk over the hops of all channels.
pub(crate) fn channels_on<S: Stage, T: Transport>(
    alloc: Global,
    count: usize,
    parts: &[ChannelPart<S, T>],
) -> Result<Vec<Vec<usize>>, AllocError>
    ensures { IfOk result (λ rows. rows_in rows.items ≡ map (channels_on parts.now) (range_with_len 0 count)) }
{
    let mut rows = empty_lists(alloc, count)?;
    for channel in 0..parts.len() {
        note_channel(&mut rows, channel, &parts[channel])?;
    }
    Ok(rows)
}

/// Notes a channel at each executor that one of its hops is on.
fn note_channel<S: Stage, T: Transport>(
    rows: &mut Vec<Vec<usize>>,
    channel: usize,
    part: &ChannelPart<S, T>,
) -> Result<(), AllocError>
    requires { All (All (λ c. c < channel)) (rows_in rows.old.items) }
    ensures { OnOk result (AreNoted channel part.now.path.executors (rows_in rows.old.items) (rows_in rows.new.items)) }
{
    for hop in 0..part.hops() {
        note_at(rows, part.target(hop), channel)?;
    }
    Ok(())
}

/// Notes a channel at an executor, if there is a row for it.
fn note_at(rows: &mut Vec<Vec<usize>>, executor: usize, channel: usize) -> Result<(), AllocError>
    ensures { OnOk result (IsNotedAt channel executor (rows_in rows.old.items) (rows_in rows.new.items)) }
{
    if executor < rows.len() {
        note_once(&mut rows[executor], channel)?;
    }
    Ok(())
}

/// Notes a channel at the end of a row, unless it is the last there.
fn note_once(row: &mut Vec<usize>, channel: usize) -> Result<(), AllocError>
    ensures { OnOk result (IsNoted channel row.old.items row.new.items) }
{
    let count = row.len();
    if count > 0 && row[count - 1] == channel {
        return Ok(());
    }
    row.push(channel)?;
    Ok(())
}
