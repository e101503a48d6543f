//! One turn of a script.
ghost use Rattle.std.specs.Prelude.{◌≡◌, ◌≤◌, ◌&&◌, length, All};
ghost use Rattle.rv_model.specs.Numbers.{has_bit};
ghost use Rattle.rv_model.specs.Records.{failed_outcome};
ghost use Rattle.rv_core.specs.Deliveries.{FitsDelivery};
ghost use Rattle.rv_feed.specs.Lane.{panics_of};
ghost use Rattle.rv_feed.specs.inner.Turns.{PlaysTurn};

use crate::lane::{Keeper, delivery_at, is_panic};
use crate::player::Player;
use rv_io::Gate;
use rv_model::{Delivered, HALTED, REACTING, Reactor, Turn, fails, has_bit, is_enabled_by};

/// Whether a delivery with this outcome ends its script.
#[inline(always)]
pub fn ends_script(reactors: &[Reactor], word: u64, monitor: u8, outcome: Delivered) -> bool
    ensures { result ≡ (failed_outcome outcome && (panics_of reactors.now monitor && has_bit word 33)) }
{
    match outcome {
        Delivered::Done(answer) => {
            fails(answer) && (is_panic(reactors, monitor) && has_bit(word, REACTING))
        }
        Delivered::Racing => false,
    }
}

/// Plays one turn: a look, then the deliveries that it enables, whose records are kept. True where the script ends with it.
pub(crate) fn play_turn<P: Player, L: Keeper, G: Gate>(
    player: &mut P,
    shared: &P::Shared,
    reactors: &[Reactor],
    turn: &Turn,
    lane: &mut L,
    gate: &mut G,
) -> bool
    requires of { P.is_of player.old shared.now }
    requires fit { All (FitsDelivery (P.setup player.old)) (L.lane lane.old).work.deliveries }
    requires order { turn.now.from ≤ turn.now.to }
    requires in_list { turn.now.to ≤ length (L.lane lane.old).work.deliveries }
    requires kept { length (L.lane lane.old).records ≤ turn.now.from }
    requires room { length (L.lane lane.old).work.deliveries ≤ (L.lane lane.old).room }
    ensures { PlaysTurn (P.does (L.lane lane.old).work.cpu) (P.setup player.old) (panics_of reactors.now) player.old player.new turn.now (L.lane lane.old) (L.lane lane.new) result }
{
    let cpu = lane.work().cpu;
    let word = player.look(shared, cpu);
    if has_bit(word, HALTED) {
        return true;
    }
    for place in turn.from..turn.to {
        let delivery = delivery_at(lane, place);
        if is_enabled_by(word, &delivery) {
            let outcome = player.serve(shared, cpu, &delivery, gate);
            lane.keep(place, turn.line, outcome, has_bit(word, REACTING));
            if ends_script(reactors, word, delivery.monitor, outcome) {
                player.halt(shared, cpu);
                return true;
            }
        }
    }
    false
}
