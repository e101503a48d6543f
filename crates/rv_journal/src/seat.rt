//! A seat of a counted board: the token by which one thread acts on it.
ghost use Rattle.std.specs.Prelude.{◌≡◌, ◌<◌, ◌≤◌};
ghost use Rattle.rv_model.specs.Histories.{IsSound};
ghost use Rattle.rv_core.specs.Setup.{judges_of};

use atomic_table::Seat as Token;
use rv_board::{SEATS, View};
use rv_model::{Act, Entry, Keeps};
use std::marker::Model;

/// How many entries the seat of one number may make, so that no count is too large.
pub const MAX_ENTRIES: u32 = 4_000_000;

/// The right to act on a counted board under a number, to hand on the numbers above it and below `end`, and to make
/// `left` more entries. Contracts see what the seat knows too.
#[derive(Drop)]
pub struct CountedSeat {
    pub(crate) token: Token<Act, View>,
    pub(crate) number: u32,
    pub(crate) end: u32,
    pub(crate) left: u32,
}

impl Model for CountedSeat {
    ghost use Rattle.rv_model.specs.contracts.entry.Entry as entry;
    ghost use Rattle.rv_journal.specs.CountedSeats.{CountedValue, coded_counted, IsCountedSeat};

    ghost Value = { CountedValue };

    ghost coded = { coded_counted entry.the_row.coded };

    ghost view = { λ s. record { seat = record { part = s.token.me.0.part; board = record { table = s.token.table_id; setup = s.token.me.0.setup } }; left = s.left } };

    ghost invariant = { λ s. IsCountedSeat s.number s.end s.left s.token.me };
}

impl Keeps<Entry> for CountedSeat {
    ghost list = { λ s. s.seat.part.seen };
}

impl CountedSeat {
    /// The number under which the seat acts: 0 is the run itself, 2 to 65 the CPUs. Some callers drop the answer, and
    /// want the clause `sound` alone.
    pub fn number(&self) -> u32
        ensures number { result ≡ self.now.seat.part.number }
        ensures sound { IsSound self.now.seat.board.setup (judges_of self.now.seat.board.setup) self.now.seat.part.seen }
    {
        self.number
    }

    /// One past the last number that the seat may hand on.
    pub fn end(&self) -> u32
        ensures end { result ≡ self.now.seat.part.end }
        ensures range { (self.now.seat.part.number < result) × (result ≤ SEATS) }
    {
        self.end
    }

    /// How many entries the seat may still make.
    pub fn left(&self) -> u32
        ensures { result ≡ self.now.left }
    {
        self.left
    }
}
