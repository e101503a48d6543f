//! A board: the words that threads share, and the atomic steps that seats take on them.
ghost use Rattle.std.specs.Prelude.{◌≡◌, ◌<◌, ◌^◌, [], IfOk, sum, reverse};
ghost use Rattle.rv_model.specs.declared.entry.Act.TheVariants.{Look, Raise, Lower, Clear, End};
ghost use Rattle.rv_model.specs.SharedWords.{word_of};
ghost use Rattle.rv_core.specs.Setup.{judges_of};
ghost use Rattle.rv_board.specs.Known.{part};
ghost use Rattle.rv_board.specs.Seats.{seat_value, SeatGrows, Looks, Does};

use crate::rule::{ClearStep, EndStep, Law, LoadStep, LookStep, LowerStep, RaiseStep};
use crate::seat::{SEATS, Seat};
use crate::spacing::Spacing;
use crate::view::View;
use atomic_table::Table;
use rv_core::{Setup, opening_words};
use rv_model::Act;
use rv_slots::Shape;
use std::alloc::{AllocError, Global};
use std::marker::Model;

/// The bit of the switches that halts a run.
const HALTED: u64 = 1 << 34;

/// The switches at place 0, and a word for each slot of the setup, at the place that the spacing gives it. Contracts see
/// which board it is and its setup; the words are known by what seats have seen.
#[derive(Drop)]
pub struct Board {
    pub(crate) table: Table<Act, View, Setup, Law, Global>,
    pub(crate) setup: Setup,
    pub(crate) spacing: Spacing,
}

impl Model for Board {
    ghost use Rattle.std.specs.Prelude.{◌≡◌, sum};
    ghost use Rattle.rv_board.specs.Places.{room_of};
    ghost use Rattle.rv_board.specs.Seats.{BoardId, coded_board};

    ghost Value = { BoardId };

    ghost coded = { coded_board };

    ghost view = { λ b. record { table = b.table.shared.table_id; setup = b.setup } };

    ghost invariant = { λ b. (b.table.shared.key ≡ b.setup) × (b.table.shared.table_id.words ≡ room_of (sum b.setup.shape)) × (b.spacing ≡ sum b.setup.shape) };
}

/// A new board, and its first seat, which has all numbers, 0 to 66.
#[derive(Drop)]
pub struct BoardStart {
    pub board: Board,
    pub seat: Seat,
}

impl Board {
    /// A board on which every instance waits with its starting levels, and its first seat, which has all numbers and
    /// has seen nothing. The one error is want of memory.
    pub fn new(alloc: Global, setup: Setup) -> Result<BoardStart, AllocError>
        ensures board { IfOk result (λ start. start.board.setup ≡ setup) }
        ensures seat { IfOk result (λ start. start.seat ≡ seat_value (part 0 67 [] []) start.board) }
    {
        let spacing = Spacing::of(setup.shape.slots());
        let words = opening_words(alloc, &setup)?;
        let placed = spacing.spread(alloc, words)?;
        let (table, token) = Table::of_words(alloc, placed.as_slice(), &setup)?;
        Ok(BoardStart {
            board: Board {
                table,
                setup,
                spacing,
            },
            seat: Seat {
                token,
                number: 0,
                end: SEATS,
            },
        })
    }

    /// How many slots each monitor has. No shared word is read.
    pub fn shape(&self) -> &Shape
        ensures { result.now ≡ self.now.setup.shape }
    {
        &self.setup.shape
    }

    /// The switches, by one load: bits 0 to 31 for the monitors that are enabled, 32 monitoring, 33 reacting, 34
    /// halted.
    pub fn look(&self, seat: &mut Seat) -> u64
        requires { seat.old.board ≡ self.now }
        ensures { Looks seat.old seat.new result }
    {
        self.table.shared.load::<LookStep>(&mut seat.token, 0)
    }

    /// Turns on the halted switch, which no call turns off. Any seat may do so.
    pub fn halt(&self, seat: &mut Seat)
        requires { seat.old.board ≡ self.now }
        ensures { Does seat.old seat.new (Raise (2 ^ 34)) }
    {
        self.table
            .shared
            .fetch_or::<RaiseStep>(&mut seat.token, 0, HALTED);
    }

    /// Turns on the switches whose bits are set, all below the halted one. Only the control actor calls it.
    pub fn raise(&self, seat: &mut Seat, bits: u64)
        requires board { seat.old.board ≡ self.now }
        requires actor { seat.old.part.number ≡ 1 }
        requires bits { bits < 2 ^ 34 }
        ensures { Does seat.old seat.new (Raise bits) }
    {
        self.table
            .shared
            .fetch_or::<RaiseStep>(&mut seat.token, 0, bits);
    }

    /// Turns off the switches whose bits are set, all below the halted one. Only the control actor calls it.
    pub fn lower(&self, seat: &mut Seat, bits: u64)
        requires board { seat.old.board ≡ self.now }
        requires actor { seat.old.part.number ≡ 1 }
        requires bits { bits < 2 ^ 34 }
        ensures { Does seat.old seat.new (Lower bits) }
    {
        self.table
            .shared
            .fetch_and::<LowerStep>(&mut seat.token, 0, !bits);
    }

    /// Lets the slot's instance wait again with its starting levels, also where it was stopped. Only the control actor
    /// calls it.
    pub fn clear(&self, seat: &mut Seat, slot: u32)
        requires board { seat.old.board ≡ self.now }
        requires actor { seat.old.part.number ≡ 1 }
        requires slot { slot < sum self.now.setup.shape }
        ensures { Does seat.old seat.new (Clear slot) }
    {
        let opening = self.setup.opening(slot);
        self.table
            .shared
            .swap::<ClearStep>(&mut seat.token, self.spacing.place(slot), opening);
    }

    /// Ends the slot's instance, as when its task is gone: it waits again with its starting levels, also where it was
    /// stopped. Any seat may do so.
    pub fn end(&self, seat: &mut Seat, slot: u32)
        requires board { seat.old.board ≡ self.now }
        requires slot { slot < sum self.now.setup.shape }
        ensures { Does seat.old seat.new (End slot) }
    {
        let opening = self.setup.opening(slot);
        self.table
            .shared
            .swap::<EndStep>(&mut seat.token, self.spacing.place(slot), opening);
    }

    /// The word of a slot, by one load that makes no entry: the word after all entries that the seat has seen by then.
    /// Which entries of other seats these are is left open.
    pub fn word(&self, seat: &mut Seat, slot: u32) -> u64
        requires board { seat.old.board ≡ self.now }
        requires slot { slot < sum self.now.setup.shape }
        ensures grows { SeatGrows seat.old seat.new [] }
        ensures word { result ≡ word_of self.now.setup (judges_of self.now.setup) (reverse seat.new.part.seen) slot }
    {
        self.table
            .shared
            .load::<LoadStep>(&mut seat.token, self.spacing.place(slot))
    }
}
