//! What the rules do on one line.
ghost use Rattle.std.specs.Prelude.{◌≡◌, filter, map};
ghost use Rattle.rv_route.specs.Asking.{text_at};
ghost use Rattle.rv_route.specs.Events.{is_on_event, IsEventOf, IsIndexOf};
ghost use Rattle.rv_route.specs.Lines.{IsRoutable};
ghost use Rattle.rv_route.specs.LineByLine.{GivesRoutes, line_routes};
ghost use Rattle.rv_route.specs.Listing.{target_of};
ghost use Rattle.rv_route.specs.inner.Gathering.{GathersLine};

use crate::asking::ask_for;
use crate::deliveries::Deliveries;
use crate::event::Event;
use crate::finds::Finds;
use crate::index::{Index, event_at};
use rv_bind::Bindings;
use rv_text::Refused;
use rv_trace::TraceLine;

/// Does what the rules ask for on the line, in their order, up to the first refusal.
pub(crate) fn take(
    deliveries: &mut Deliveries,
    bindings: &Bindings,
    index: &Index,
    text: &[u8],
    line: &TraceLine,
    finds: &mut Finds,
) -> Result<(), Refused>
    requires line { IsRoutable text.now line.now }
    requires index { IsIndexOf bindings.now.rules.items index.now }
    requires targets { deliveries.old.targets ≡ map target_of bindings.now.rules.items }
    ensures gives { GivesRoutes result deliveries.new.routes (line_routes text.now line.now bindings.now.monitors.items bindings.now.rules.items deliveries.old.routes) }
    ensures kept { GathersLine line.now.number deliveries.old deliveries.new }
{
    let from = line.name.from as usize;
    match event_at(index, &text[from..line.name.to as usize], &text[from..]) {
        Some(event) => fire(deliveries, bindings, event, text, line, finds),
        None => Ok(()),
    }
}

/// Does what an event's rules ask for on a line of it, in their order, up to the first refusal.
fn fire(
    deliveries: &mut Deliveries,
    bindings: &Bindings,
    event: &Event,
    text: &[u8],
    line: &TraceLine,
    finds: &mut Finds,
) -> Result<(), Refused>
    requires line { IsRoutable text.now line.now }
    requires event { IsEventOf bindings.now.rules.items (text_at text.now line.now.name) event.now }
    requires targets { deliveries.old.targets ≡ map target_of bindings.now.rules.items }
    ensures gives { GivesRoutes result deliveries.new.routes (line_routes text.now line.now bindings.now.monitors.items (filter (is_on_event (text_at text.now line.now.name)) bindings.now.rules.items) deliveries.old.routes) }
    ensures kept { GathersLine line.now.number deliveries.old deliveries.new }
{
    let fields = &text[line.fields.from as usize..line.fields.to as usize];
    let found = finds.look_up(fields, &event.fields)?;
    for asked in &event.rules {
        let rule = &bindings.rules[asked.rule];
        let ask = ask_for(&bindings.monitors, rule, asked, line, fields, found);
        deliveries.answer(line, rule, asked.rule, ask)?;
    }
    Ok(())
}
