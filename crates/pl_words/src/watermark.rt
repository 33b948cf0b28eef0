//! Whether a channel is writable: one word that its head sets and that any thread reads by single steps.

ghost use Rattle.std.specs.Prelude.{◌≡◌, ℕ, ◌+◌, ◌*◌, ◌<◌, ◌≤◌, not, All, IfOk, length};
ghost use Rattle.pl_words.specs.Watermarks.{IsMarked, Looks, is_news, new_head_seat, new_reader};

use crate::look::Look;
use crate::watermark_steps::{Deal, Set, WatermarkNotes, WatermarkRule};
use atomic_table::{Seat, Table};
use std::alloc::{AllocError, Global};
use std::marker::Model;

/// The most sets that a head makes.
pub const MAX_SETS: u64 = 1 << 62;

/// Whether a channel is writable (Netty's `Channel.isWritable`). Its one word has how often that was set, and what was
/// set last.
#[derive(Drop)]
pub struct Watermark {
    table: Table<(), WatermarkNotes, (), WatermarkRule, Global>,
}

impl Model for Watermark {
    ghost use Rattle.std.specs.Prelude.{◌≡◌};
    ghost use Rattle.pl_words.specs.Watermarks.{WatermarkView};

    ghost Value = { WatermarkView };

    ghost view = { λ w. record { name = w.table.shared.table_id } };

    ghost invariant = { λ w. w.table.shared.table_id.words ≡ 1 };
}

/// The right to set the mark. There is one for each watermark.
#[derive(Drop)]
pub struct HeadSeat {
    seat: Seat<(), WatermarkNotes>,
    /// The marks, in bytes.
    low: u32,
    high: u32,
    /// How often it has set the mark.
    sets: u64,
    /// The bytes that waited when it did so last.
    pending: u128,
    is_unwritable: bool,
}

impl Model for HeadSeat {
    ghost use Rattle.std.specs.Prelude.{◌≡◌, []};
    ghost use Rattle.pl_words.specs.WatermarkRule.{head_notes};
    ghost use Rattle.pl_words.specs.Watermarks.{HeadSeatView, IsMarked};

    ghost Value = { HeadSeatView };

    ghost view = { λ h. record { name = h.seat.table_id; low = h.low; high = h.high; sets = h.sets; pending = h.pending; unwritable = h.is_unwritable } };

    ghost invariant = { λ h. (h.seat.me ≡ (head_notes h.sets h.is_unwritable, [])) × IsMarked h.low h.high h.pending h.is_unwritable };
}

impl HeadSeat {
    /// Whether this is not what it set last, and it may set the mark once more and stay below `MAX_SETS`.
    pub fn is_news(&self, pending: u128, unwritable: bool) -> bool
        ensures { result ≡ is_news self.now pending unwritable }
    {
        (self.pending != pending || self.is_unwritable != unwritable) && self.sets < MAX_SETS - 1
    }
}

/// A reader's right to look at the mark, and what it has seen.
#[derive(Drop)]
pub struct ReadSeat {
    seat: Seat<(), WatermarkNotes>,
}

impl Model for ReadSeat {
    ghost use Rattle.pl_words.specs.Watermarks.{ReadSeatView};

    ghost Value = { ReadSeatView };

    ghost view = { λ s. record { name = s.seat.table_id; version = s.seat.me.0.version; unwritable = s.seat.me.0.unwritable; steps = s.seat.me.0.steps } };
}

/// What a look at the mark found.
#[derive(Clone, Copy, Debug, PartialEq, Eq)]
pub struct Mark {
    /// How often it had been set.
    pub version: u64,
    /// What was set last, or false where nothing was.
    pub unwritable: bool,
}

impl Watermark {
    /// A watermark that is writable and was never set, with the head's seat and one for each reader. The marks are in
    /// bytes. `AllocError` where memory is refused.
    pub fn new(
        alloc: Global,
        low: u32,
        high: u32,
        readers: u16,
    ) -> Result<(Watermark, HeadSeat, Vec<ReadSeat>), AllocError>
        requires { low ≤ high }
        ensures head { IfOk result (λ new. new.1 ≡ new_head_seat new.0.name low high) }
        ensures readers { IfOk result (λ new. (length new.2.items ≡ readers) × All (λ s. s ≡ new_reader new.0.name) new.2.items) }
    {
        let mut seats = Vec::with_capacity(alloc, usize::from(readers))?;
        let (table, mut head) = Table::of_words(alloc, &[0], &())?;
        for number in 0..readers {
            let seat = table.shared.split_seat::<Deal>(&mut head);
            seats.push_reserved(ReadSeat { seat });
        }
        let head = HeadSeat {
            seat: head,
            low,
            high,
            sets: 0,
            pending: 0,
            is_unwritable: false,
        };
        Ok((Watermark { table }, head, seats))
    }

    /// Sets what is pending now, in bytes, and whether the channel is unwritable, by one step.
    pub fn set(&self, head: &mut HeadSeat, pending: u128, unwritable: bool)
        requires name { head.old.name ≡ self.now.name }
        requires marked { IsMarked head.old.low head.old.high pending unwritable }
        requires room { head.old.sets < MAX_SETS }
        ensures set { head.new ≡ record head.old { sets = head.old.sets + 1; pending = pending; unwritable = unwritable } }
        ensures marked { IsMarked head.new.low head.new.high head.new.pending head.new.unwritable }
    {
        head.sets += 1;
        head.pending = pending;
        head.is_unwritable = unwritable;
        let word = 2 * head.sets + u64::from(unwritable);
        self.table.shared.store::<Set>(&mut head.seat, 0, word);
    }

    /// The mark that one look at the word finds: never an older version than the seat has seen, and the same version
    /// with the same flag.
    pub fn look(&self, seat: &mut ReadSeat) -> Mark
        requires { seat.old.name ≡ self.now.name }
        ensures found { (result.version ≡ seat.new.version) × (result.unwritable ≡ seat.new.unwritable) }
        ensures looks { Looks seat.old seat.new }
    {
        let word = self.table.shared.load::<Look>(&mut seat.seat, 0);
        Mark {
            version: word / 2,
            unwritable: word % 2 == 1,
        }
    }

    /// Whether one look at the word finds the channel writable.
    pub fn is_writable(&self, seat: &mut ReadSeat) -> bool
        requires { seat.old.name ≡ self.now.name }
        ensures found { result ≡ not seat.new.unwritable }
        ensures looks { Looks seat.old seat.new }
    {
        !self.look(seat).unwritable
    }
}
