//! Counted deliveries, which are made as on a board without counts, and observe their slot's count (this project's
//! choice: docs/DECISIONS.md, "Counted words").
ghost use Rattle.std.specs.Prelude.{◌≡◌, ◌+◌, ◌-◌, ◌<◌, sum};
ghost use Rattle.rv_core.specs.Advance.{FitsTable};
ghost use Rattle.rv_core.specs.Setup.{table_at};
ghost use Rattle.rv_board.specs.Deliveries.{DeliversOrStops};
ghost use Rattle.rv_journal.specs.CountedWords.{IsBelow, rows_at};
ghost use Rattle.rv_journal.specs.CountedSeats.{Counts};

use crate::board::{CountedBoard, rows_of};
use crate::counted::Counted;
use crate::rule::{CountedExchange, CountedLoad, CountedStop};
use crate::seat::CountedSeat;
use crate::words::{COUNT, count_after, count_in, counted_word, word_in};
use rv_core::advance;
use rv_io::Gate;
use rv_model::{Act, Delivered, Entry, Hit};
use rv_word::STOPPED;

/// How many compare-exchanges a delivery may lose before it stops its instance.
const TRIES: u32 = 3;

impl CountedBoard {
    /// Delivers a hit as a board without counts does, in three tries at most, and gives what it observed. The slot's
    /// count grows with each delivery that changes the instance's word, and a Stop leaves it. So a word that was
    /// changed and changed back is a lost try, too.
    pub fn deliver<G: Gate>(
        &self,
        seat: &mut CountedSeat,
        cpu: u32,
        slot: u32,
        hit: &Hit,
        gate: &mut G,
    ) -> Counted
        requires board { seat.old.seat.board ≡ self.now }
        requires slot { slot < sum self.now.setup.shape }
        requires hit { FitsTable (table_at self.now.setup slot) hit.now }
        requires levels { IsBelow (32 - rows_at self.now.setup slot) hit.now.what }
        requires left { 0 < seat.old.left }
        ensures delivers { DeliversOrStops seat.old.seat seat.new.seat slot hit.now result.outcome }
        ensures counts { Counts seat.old.seat seat.new.seat slot result }
        ensures left { seat.new.left + 1 ≡ seat.old.left }
    {
        let act = Act::Deliver { slot, hit: *hit };
        let place = self.spacing.place(slot);
        let shared = &self.table.shared;
        let table = self.setup.table(slot);
        let rows = rows_of(&self.setup, slot);
        seat.left -= 1;
        let mut raw = shared.load::<CountedLoad>(&mut seat.token, place);
        let first = count_in(raw);
        for lost in 0..TRIES {
            let before = word_in(rows, raw);
            let count = count_in(raw);
            let next = advance(table, before, hit);
            let after = count_after(count, before, next.word);
            gate.between(cpu, lost);
            let found = shared.compare_exchange_with::<CountedExchange>(
                &mut seat.token,
                place,
                raw,
                counted_word(rows, next.word, after),
                &act,
            );
            if found == raw {
                return Counted {
                    entry: Entry {
                        seat: seat.number,
                        act,
                        before,
                        after: next.word,
                    },
                    first,
                    count,
                    outcome: Delivered::Done(next.answer),
                };
            }
            raw = found;
        }
        let found = shared.fetch_and::<CountedStop>(&mut seat.token, place, COUNT);
        Counted {
            entry: Entry {
                seat: seat.number,
                act: Act::Stop { slot },
                before: word_in(rows, found),
                after: STOPPED,
            },
            first,
            count: count_in(found),
            outcome: Delivered::Racing,
        }
    }
}
