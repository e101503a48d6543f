//! Which entries change a slot's word.
ghost use Rattle.std.specs.Prelude.{◌≡◌};
ghost use Rattle.rv_model.specs.Histories.{changed};

use rv_model::{Act, Entry};

/// Whether the entry is on the slot and changed its word.
pub fn changes(entry: &Entry, slot: u32) -> bool
    ensures { result ≡ changed slot entry.now }
{
    let here = match entry.act {
        Act::Deliver { slot: on, .. } => on == slot,
        Act::Stop { slot: on } => on == slot,
        Act::Clear { slot: on } => on == slot,
        Act::End { slot: on } => on == slot,
        Act::Look | Act::Raise { .. } | Act::Lower { .. } => false,
    };
    here && !(entry.before == entry.after)
}
