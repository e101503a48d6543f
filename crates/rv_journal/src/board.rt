//! A counted board: the words that threads share, where each slot's word counts its changes.
ghost use Rattle.std.specs.Prelude.{◌≡◌, ◌<◌, [], IfOk, All, sum};
ghost use Rattle.rv_board.specs.Known.{part};
ghost use Rattle.rv_board.specs.Seats.{seat_value};
ghost use Rattle.rv_journal.specs.CountedSeats.{AreWidths, counted_value};
ghost use Rattle.rv_journal.specs.CountedWords.{rows_at};
ghost use Rattle.rv_journal.specs.inner.Openings.{OpensCounted};

use crate::rule::CountedLaw;
use crate::seat::{CountedSeat, MAX_ENTRIES};
use crate::words::{Width, counted_word};
use atomic_table::Table;
use rv_board::{SEATS, Spacing, View};
use rv_core::Setup;
use rv_model::Act;
use rv_slots::Shape;
use std::alloc::{AllocError, Global};
use std::marker::Model;

/// The switches at place 0, and a counted word for each slot of the setup, at the place that the spacing gives it.
/// Contracts see which board it is and its setup.
#[derive(Drop)]
pub struct CountedBoard {
    pub(crate) table: Table<Act, View, Setup, CountedLaw, Global>,
    pub(crate) setup: Setup,
    pub(crate) spacing: Spacing,
}

impl Model for CountedBoard {
    ghost use Rattle.std.specs.Prelude.{◌≡◌, sum};
    ghost use Rattle.rv_board.specs.Places.{room_of};
    ghost use Rattle.rv_board.specs.Seats.{BoardId, coded_board};

    ghost Value = { BoardId };

    ghost coded = { coded_board };

    ghost view = { λ b. record { table = b.table.shared.table_id; setup = b.setup } };

    ghost invariant = { λ b. (b.table.shared.key ≡ b.setup) × (b.table.shared.table_id.words ≡ room_of (sum b.setup.shape)) × (b.spacing ≡ sum b.setup.shape) };
}

/// A new board, and its first seat, which has all numbers, 0 to 66.
#[derive(Drop)]
pub struct CountedStart {
    pub board: CountedBoard,
    pub seat: CountedSeat,
}

/// How many bits the rows of a slot's words take: one for each row of its table, row 0 too.
pub(crate) fn rows_of(setup: &Setup, slot: u32) -> u32
    requires { slot < sum setup.now.shape }
    ensures { result ≡ rows_at setup.now slot }
{
    setup.table(slot).rows() + 1
}

/// The words of a new board: the switches, then each slot's opening word with the count 0.
fn opening_words(alloc: Global, setup: &Setup, _widths: &[Width]) -> Result<Vec<u64>, AllocError>
    requires { AreWidths setup.now _widths.now }
    ensures { IfOk result (λ words. OpensCounted setup.now words.items) }
{
    setup.assert_invariant();
    let slots = setup.shape.slots();
    let mut words = Vec::new(alloc);
    words.push(setup.switches)?;
    for slot in 0..slots {
        let table = setup.table(slot);
        table.assert_invariant();
        let rows = rows_of(setup, slot);
        words.push(counted_word(rows, setup.opening(slot), 0))?;
    }
    Ok(words)
}

impl CountedBoard {
    /// A board on which every instance waits with its starting levels, and its first seat, which has all numbers and
    /// has seen nothing. There is a width for each monitor, whose rows and atoms take 32 bits together at most. The one
    /// error is want of memory.
    pub fn new(alloc: Global, setup: Setup, widths: Vec<Width>) -> Result<CountedStart, AllocError>
        requires { AreWidths setup widths.items }
        ensures board { IfOk result (λ start. start.board.setup ≡ setup) }
        ensures seat { IfOk result (λ start. start.seat ≡ counted_value (seat_value (part 0 67 [] []) start.board) 4000000) }
    {
        let spacing = Spacing::of(setup.shape.slots());
        let words = opening_words(alloc, &setup, &widths)?;
        let placed = spacing.spread(alloc, words)?;
        let (table, token) = Table::of_words(alloc, placed.as_slice(), &setup)?;
        Ok(CountedStart {
            board: CountedBoard {
                table,
                setup,
                spacing,
            },
            seat: CountedSeat {
                token,
                number: 0,
                end: SEATS,
                left: MAX_ENTRIES,
            },
        })
    }

    /// The setup that the board was made with. No shared word is read.
    pub fn setup(&self) -> &Setup
        ensures { result.now ≡ self.now.setup }
    {
        &self.setup
    }

    /// How many slots each monitor has. No shared word is read.
    pub fn shape(&self) -> &Shape
        ensures { result.now ≡ self.now.setup.shape }
    {
        &self.setup.shape
    }
}
