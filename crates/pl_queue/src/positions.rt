//! Where the numbers of a lane stand, found by index.

ghost use Rattle.std.specs.Prelude.{◌≡◌, ◌≢◌, ◌<◌, ◌≤◌, ◌^◌, ℕ, IfOk, get_or, false, length};
ghost use Rattle.pl_event.specs.declared.envelopes.Lane.{Lane};
ghost use Rattle.pl_event.specs.Hops.{same_lane};
ghost use Rattle.pl_queue.specs.declared.limits.TheConstants.{MAX_LANES};
ghost use Rattle.pl_queue.specs.Left.{Apart};
ghost use Rattle.pl_queue.specs.Positions.{row_of as the_row_of, row_at, position_of, ArePositions};
ghost use Rattle.pl_queue.specs.Views.{lanes_of_counts};

use crate::views::TakeCount;
use pl_event::{Kind, Lane};
use std::alloc::{AllocError, Global};

/// The position of each of some lanes in a list. To find one costs two indexings, however many lanes there are. It has two
/// rows for each channel up to the highest, and in a row an entry for each hop up to the highest.
#[derive(Drop)]
pub struct Positions {
    alloc: Global,
    rows: Vec<Vec<u16>>,
}

// The row of a lane.
fn row_of(lane: Lane) -> usize
    ensures { result ≡ the_row_of lane }
{
    let channel = usize::from(lane.channel);
    match lane.kind {
        Kind::Data => 2 * channel,
        Kind::Flags => 2 * channel + 1,
    }
}

// Adds empty rows, up to this count.
fn add_rows(alloc: Global, rows: &mut Vec<Vec<u16>>, count: usize) -> Result<(), AllocError>
    ensures same { IfOk result (λ _. (n : ℕ) → row_at rows.new.items n ≡ row_at rows.old.items n) }
    ensures long { IfOk result (λ _. count ≤ length rows.new.items) }
{
    for _ in rows.len()..count {
        rows.push(Vec::new(alloc))?;
    }
    Ok(())
}

// Adds zeros, up to this count.
fn add_zeros(row: &mut Vec<u16>, count: usize) -> Result<(), AllocError>
    ensures same { IfOk result (λ _. (n : ℕ) → get_or row.new.items n 0 ≡ get_or row.old.items n 0) }
    ensures long { IfOk result (λ _. count ≤ length row.new.items) }
{
    for _ in row.len()..count {
        row.push(0)?;
    }
    Ok(())
}

// Puts a position into a row.
fn put_into_row(row: &mut Vec<u16>, column: usize, position: u16) -> Result<(), AllocError>
    requires { column < 2 ^ 16 }
    ensures here { IfOk result (λ _. get_or row.new.items column 0 ≡ position) }
    ensures others { IfOk result (λ _. (n : ℕ) → n ≢ column → get_or row.new.items n 0 ≡ get_or row.old.items n 0) }
{
    add_zeros(row, column + 1)?;
    row[column] = position;
    Ok(())
}

impl Positions {
    /// The position of a lane; 0 for a lane that has none.
    pub fn find(&self, lane: Lane) -> usize
        ensures { result ≡ position_of self.now.rows.items lane }
    {
        match self.rows.get(row_of(lane)) {
            None => 0,
            Some(row) => match row.get(usize::from(lane.hop)) {
                None => 0,
                Some(position) => usize::from(*position),
            },
        }
    }

    // Gives a lane its position.
    fn put(&mut self, lane: Lane, position: u16) -> Result<(), AllocError>
        ensures here { IfOk result (λ _. position_of self.new.rows.items lane ≡ position) }
        ensures others { IfOk result (λ _. (l : Lane) → same_lane l lane ≡ false → position_of self.new.rows.items l ≡ position_of self.old.rows.items l) }
    {
        let row = row_of(lane);
        add_rows(self.alloc, &mut self.rows, row + 1)?;
        put_into_row(&mut self.rows[row], usize::from(lane.hop), position)?;
        Ok(())
    }

    /// The positions of the lanes of these counts, in their order.
    pub fn new(alloc: Global, counts: &[TakeCount]) -> Result<Positions, AllocError>
        requires few { length counts.now ≤ MAX_LANES }
        requires apart { Apart (lanes_of_counts counts.now) }
        ensures { IfOk result (λ positions. ArePositions positions.rows.items 0 (lanes_of_counts counts.now)) }
    {
        let mut positions = Positions {
            alloc,
            rows: Vec::new(alloc),
        };
        for i in 0..counts.len() {
            positions.put(counts[i].lane, i as u16)?;
        }
        Ok(positions)
    }
}
