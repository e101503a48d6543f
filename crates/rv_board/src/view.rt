//! The types that a seat's token carries for proofs alone: no program makes a value of them.

use rv_core::Setup;
use rv_model::Entry;
use std::collections::LinkedList;
use std::marker::Model;

/// The numbers that a seat may use or hand on, those that were joined into it, and the entries that it has seen.
pub struct Part {
    number: u32,
    end: u32,
    joined_in: LinkedList<u32>,
    seen: LinkedList<Entry>,
}

impl Model for Part {
    ghost use Rattle.rv_model.specs.contracts.entry.Entry as entry;
    ghost use Rattle.rv_model.specs.Seats.{Seat};
    ghost use Rattle.rv_board.specs.Codes.{coded_part};

    ghost Value = { Seat };

    ghost coded = { coded_part entry.the_row.coded };

    ghost view = { λ p. record { number = p.number; end = p.end; joined_in = p.joined_in; seen = p.seen } };
}

/// What one seat knows, and the setup of its board. Between the two loads of a join, `left` and `right` are what the
/// two seats knew.
pub struct View {
    pub part: Part,
    pub left: Part,
    pub right: Part,
    pub setup: Setup,
}
