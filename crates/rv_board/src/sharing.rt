//! Seats are split and joined, and the last one closes the board.
ghost use Rattle.std.specs.Prelude.{◌≡◌, ◌<◌, []};
ghost use Rattle.atomic_table.specs.Table.{Splits};
ghost use Rattle.rv_board.specs.Known.{part};
ghost use Rattle.rv_board.specs.Rule.{cut_left, cut_right};
ghost use Rattle.rv_board.specs.Seats.{seat_value, Joins, Closes};

use crate::board::Board;
use crate::rule::{Cut, Cutting, Joining, Law, LoadStep};
use crate::seat::Seat;
use crate::view::View;
use atomic_table::{Seat as Token, Shared, TableRule};
use rv_core::Setup;
use rv_model::{Act, Closed};
use std::marker::Brand;

/// Cuts a token at a number: it keeps the numbers below, and the new token gets the others and has seen as much. Any
/// board will do whose rule allows the cut.
pub fn cut<N: Cutting, L: TableRule<Act, View, Setup>>(
    shared: &Shared<Act, View, Setup, L>,
    token: &mut Token<Act, View>,
    number: u32,
) -> Token<Act, View>
    requires pick { number ≡ N.at }
    requires board { (token.old.table_id ≡ shared.now.table_id) × (0 < shared.now.table_id.words) }
    requires allowed { Splits (L.holds shared.now.key) token.old.id token.old.me.0 (cut_left number token.old.me.0) (cut_right number token.old.me.0) }
    ensures old { (token.new.table_id ≡ token.old.table_id) × (token.new.me ≡ (cut_left number token.old.me.0, token.old.me.1)) }
    ensures new { (result.table_id ≡ token.old.table_id) × (result.me ≡ (cut_right number token.old.me.0, [])) }
{
    shared.split_seat::<Cut<N>>(token)
}

impl Board {
    /// Hands the numbers from `number` on to a new seat, which has seen what the old one has.
    pub fn split(&self, seat: &mut Seat, number: u32) -> Seat
        requires board { seat.old.board ≡ self.now }
        requires range { (seat.old.part.number < number) × (number < seat.old.part.end) }
        ensures old { seat.new ≡ seat_value (part seat.old.part.number number seat.old.part.joined_in seat.old.part.seen) seat.old.board }
        ensures new { result ≡ seat_value (part number seat.old.part.end [] seat.old.part.seen) seat.old.board }
    {
        let end = seat.end;
        let token = cut::<Brand, Law>(&self.table.shared, &mut seat.token, number);
        seat.end = number;
        Seat { token, number, end }
    }

    /// Takes over another seat's numbers, under which nobody acts again, and what it has seen. Entries of further seats
    /// may come in too.
    pub fn join(&self, into: &mut Seat, from: Seat)
        requires into { into.old.board ≡ self.now }
        requires from { from.board ≡ self.now }
        ensures { Joins into.old from into.new }
    {
        let Seat {
            token,
            number: _,
            end: _,
        } = from;
        let shared = &self.table.shared;
        shared.join_seat::<Joining>(&mut into.token, token);
        shared.load::<LoadStep>(&mut into.token, 0);
    }

    /// Ends the board, and gives its history to contracts. It is whole where the seat knows all numbers; else entries
    /// of other seats may be left out.
    pub fn close(self, mut seat: Seat) -> Closed
        requires { seat.board ≡ self }
        ensures { Closes seat result }
    {
        self.table.shared.load::<LoadStep>(&mut seat.token, 0);
        Closed::of(&seat)
    }
}
