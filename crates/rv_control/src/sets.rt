//! Sets of monitors, the bit of each being its place.
ghost use Rattle.std.specs.Prelude.{◌≡◌, ◌<◌, ◌≤◌, ◌^◌, length};
ghost use Rattle.rv_control.specs.Sets.{is_chosen, chosen_set, is_enabled};

use crate::control::Control;
use rv_bind::Item;

/// Which of some monitors are meant.
#[derive(Clone, Copy, Drop)]
pub(crate) enum Those {
    All,
    Enabled,
    Disabled,
}

impl Control {
    /// Whether the monitor of this place is one of those of the item, or of all.
    fn is_chosen(&self, item: Option<Item>, those: Those, place: usize) -> bool
        requires { place < 64 }
        ensures { result ≡ is_chosen self.now item those place }
    {
        let is_of = match item {
            Some(item) => self.belongs_to(item, place),
            None => true,
        };
        is_of
            && match those {
                Those::All => true,
                Those::Enabled => self.has_switch(place),
                Those::Disabled => !self.has_switch(place),
            }
    }

    /// The set of those of an item's monitors, or of all monitors.
    pub(crate) fn set(&self, item: Option<Item>, those: Those) -> u32
        ensures { result ≡ chosen_set self.now item those }
    {
        let mut set: u64 = 0;
        let mut bit: u64 = 1;
        for place in 0..self.monitors.len() {
            if self.is_chosen(item, those, place) {
                set += bit;
            }
            bit *= 2;
        }
        set as u32
    }

    /// Whether the item has a monitor, and all its monitors are enabled.
    pub(crate) fn is_enabled(&self, item: Item) -> bool
        ensures { result ≡ is_enabled self.now item }
    {
        self.set(Some(item), Those::All) != 0 && self.set(Some(item), Those::Disabled) == 0
    }
}
