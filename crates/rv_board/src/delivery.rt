//! A delivery takes three tries at most, and then stops its instance (this project's choice: docs/DECISIONS.md, "Three
//! lost tries stop an instance").
ghost use Rattle.std.specs.Prelude.{◌≡◌, ◌<◌, sum};
ghost use Rattle.rv_core.specs.Advance.{FitsTable};
ghost use Rattle.rv_core.specs.Setup.{table_at};
ghost use Rattle.rv_board.specs.Deliveries.{DeliversOrStops};

use crate::board::Board;
use crate::rule::{ExchangeStep, LoadStep, StopStep};
use crate::seat::Seat;
use rv_core::advance;
use rv_io::Gate;
use rv_model::{Act, Delivered, Hit};
use rv_word::STOPPED;

/// How many compare-exchanges a delivery may lose before it stops its instance.
const TRIES: u32 = 3;

impl Board {
    /// Replaces the word that was found by the instance's next word. Where other seats changed the word at each of
    /// three tries, the instance is stopped. The gate is called before each try, with the number of tries lost so far.
    /// At most five atomic steps are made, and none waits.
    pub fn deliver<G: Gate>(
        &self,
        seat: &mut Seat,
        cpu: u32,
        slot: u32,
        hit: &Hit,
        gate: &mut G,
    ) -> Delivered
        requires board { seat.old.board ≡ self.now }
        requires slot { slot < sum self.now.setup.shape }
        requires hit { FitsTable (table_at self.now.setup slot) hit.now }
        ensures { DeliversOrStops seat.old seat.new slot hit.now result }
    {
        let act = Act::Deliver { slot, hit: *hit };
        let place = self.spacing.place(slot);
        let shared = &self.table.shared;
        let table = self.setup.table(slot);
        let mut word = shared.load::<LoadStep>(&mut seat.token, place);
        for lost in 0..TRIES {
            let next = advance(table, word, hit);
            gate.between(cpu, lost);
            let found = shared.compare_exchange_with::<ExchangeStep>(
                &mut seat.token,
                place,
                word,
                next.word,
                &act,
            );
            if found == word {
                return Delivered::Done(next.answer);
            }
            word = found;
        }
        shared.swap::<StopStep>(&mut seat.token, place, STOPPED);
        Delivered::Racing
    }
}
