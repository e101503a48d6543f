//! One turn of the list.
ghost use Rattle.std.specs.Prelude.{◌<◌, ◌≤◌, length, All, IfOk, slice_index_or};
ghost use Rattle.rv_core.specs.Deliveries.{FitsDelivery};
ghost use Rattle.rv_feed.specs.Lane.{panics_of};
ghost use Rattle.rv_route.specs.Listing.{ListedDelivery};
ghost use Rattle.rv_replay.specs.inner.Turns.{PlaysListed};

use crate::observer::Observer;
use rv_core::Core;
use rv_feed::{Player, ends_script, record_on, serve_hit};
use rv_model::{HALTED, REACTING, Reactor, has_bit, is_enabled_by};
use rv_route::DeliveryList;
use std::alloc::AllocError;

/// Plays the turn of the deliveries from one place to another. True where the CPU's script ends with it.
pub(crate) fn play_turn<O: Observer>(
    core: &mut Core,
    context: &O::Context,
    reactors: &[Reactor],
    list: &DeliveryList,
    from: usize,
    to: usize,
    observer: &mut O,
) -> Result<bool, AllocError>
    requires some { from < to }
    requires in_list { to ≤ length list.now }
    requires fit { All (λ d. FitsDelivery core.old.setup d.delivery) list.now }
    ensures { IfOk result (λ ends. (d : ListedDelivery) → PlaysListed (O.observed context.now) (panics_of reactors.now) (slice_index_or list.now from d).cpu core.old core.new list.now from to observer.old observer.new ends) }
{
    let line = list.line(from);
    let cpu = list.cpu(from);
    let word = core.look(&(), cpu);
    if has_bit(word, HALTED) {
        return Ok(true);
    }
    for place in from..to {
        let delivery = list.delivery(place);
        if is_enabled_by(word, &delivery) {
            let slot = core.shape().slot(delivery.monitor, delivery.instance);
            let before = core.phase(slot);
            let outcome = serve_hit(
                core,
                cpu,
                delivery.monitor,
                delivery.instance,
                list.hit(place),
            );
            // Read again: kept over the step, its hit would be copied.
            let again = list.delivery(place);
            let record = record_on(&again, line, outcome, has_bit(word, REACTING));
            observer.observe(context, core, slot, before, &record)?;
            if ends_script(reactors, word, delivery.monitor, outcome) {
                core.halt(&(), cpu);
                return Ok(true);
            }
        }
    }
    Ok(false)
}
