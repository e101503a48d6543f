//! Seats of a counted board are split and joined, and the last one closes the board.
ghost use Rattle.std.specs.Prelude.{◌≡◌, ◌<◌, []};
ghost use Rattle.rv_board.specs.Known.{part};
ghost use Rattle.rv_board.specs.Seats.{seat_value, Joins, Closes};
ghost use Rattle.rv_journal.specs.CountedSeats.{counted_value};

use crate::board::CountedBoard;
use crate::rule::{CountedLaw, CountedLoad};
use crate::seat::{CountedSeat, MAX_ENTRIES};
use rv_board::{Joining, cut};
use rv_model::Closed;
use std::marker::Brand;

impl CountedBoard {
    /// Hands the numbers from `number` on to a new seat, which has seen what the old one has, and may make
    /// `MAX_ENTRIES` entries.
    pub fn split(&self, seat: &mut CountedSeat, number: u32) -> CountedSeat
        requires board { seat.old.seat.board ≡ self.now }
        requires range { (seat.old.seat.part.number < number) × (number < seat.old.seat.part.end) }
        ensures old { seat.new ≡ counted_value (seat_value (part seat.old.seat.part.number number seat.old.seat.part.joined_in seat.old.seat.part.seen) seat.old.seat.board) seat.old.left }
        ensures new { result ≡ counted_value (seat_value (part number seat.old.seat.part.end [] seat.old.seat.part.seen) seat.old.seat.board) 4000000 }
    {
        let end = seat.end;
        let token = cut::<Brand, CountedLaw>(&self.table.shared, &mut seat.token, number);
        seat.end = number;
        CountedSeat {
            token,
            number,
            end,
            left: MAX_ENTRIES,
        }
    }

    /// Takes over another seat's numbers, under which nobody acts again, and what it has seen, but not the entries that
    /// it might still make. Entries of further seats may come in too.
    pub fn join(&self, into: &mut CountedSeat, from: CountedSeat)
        requires into { into.old.seat.board ≡ self.now }
        requires from { from.seat.board ≡ self.now }
        ensures seats { Joins into.old.seat from.seat into.new.seat }
        ensures left { into.new.left ≡ into.old.left }
    {
        let CountedSeat {
            token,
            number: _,
            end: _,
            left: _,
        } = from;
        let shared = &self.table.shared;
        shared.join_seat::<Joining>(&mut into.token, token);
        shared.load::<CountedLoad>(&mut into.token, 0);
    }

    /// Ends the board, and gives its history to contracts. It is whole where the seat knows all numbers; else entries
    /// of other seats may be left out.
    pub fn close(self, mut seat: CountedSeat) -> Closed
        requires { seat.seat.board ≡ self }
        ensures { Closes seat.seat result }
    {
        self.table.shared.load::<CountedLoad>(&mut seat.token, 0);
        Closed::of(&seat)
    }
}
