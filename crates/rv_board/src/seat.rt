//! A seat: the token by which one thread acts on a board.
ghost use Rattle.std.specs.Prelude.{◌≡◌, ◌<◌, ◌≤◌};
ghost use Rattle.rv_model.specs.Histories.{IsSound};
ghost use Rattle.rv_core.specs.Setup.{judges_of};
ghost use Rattle.rv_board.specs.declared.seat.TheConstants.{SEATS};

use crate::view::View;
use atomic_table::Seat as Token;
use rv_model::{Act, Entry, Keeps};
use std::marker::Model;

/// How many numbers the seats of a board share: 0 to 66.
pub const SEATS: u32 = 67;

/// The right to act on a board under a number, and to hand on the numbers above it and below `end`. Contracts see what
/// the seat knows too: the numbers that were joined into it, the entries that it has seen, and its board.
#[derive(Drop)]
pub struct Seat {
    pub(crate) token: Token<Act, View>,
    pub(crate) number: u32,
    pub(crate) end: u32,
}

impl Model for Seat {
    ghost use Rattle.rv_model.specs.contracts.entry.Entry as entry;
    ghost use Rattle.rv_board.specs.Seats.{SeatValue, coded_seat, IsUsable};

    ghost Value = { SeatValue };

    ghost coded = { coded_seat entry.the_row.coded };

    ghost view = { λ s. record { part = s.token.me.0.part; board = record { table = s.token.table_id; setup = s.token.me.0.setup } } };

    ghost invariant = { λ s. IsUsable s.number s.end s.token.me };
}

impl Keeps<Entry> for Seat {
    ghost list = { λ s. s.part.seen };
}

impl Seat {
    /// The number under which the seat acts: 0 is the run itself, 1 the control actor, 2 to 65 the CPUs, 66 a watcher.
    /// Some callers drop the answer, and want the clause `sound` alone.
    pub fn number(&self) -> u32
        ensures number { result ≡ self.now.part.number }
        ensures sound { IsSound self.now.board.setup (judges_of self.now.board.setup) self.now.part.seen }
    {
        self.number
    }

    /// One past the last number that the seat may hand on.
    pub fn end(&self) -> u32
        ensures end { result ≡ self.now.part.end }
        ensures range { (self.now.part.number < result) × (result ≤ SEATS) }
    {
        self.end
    }
}
