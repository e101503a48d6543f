//! The control files as one value.
ghost use Rattle.std.specs.Prelude.{◌≡◌, ◌<◌, ◌≤◌, length, slice_get, option_copied, Some};
ghost use Rattle.rv_model.specs.Numbers.{has_bit};
ghost use Rattle.rv_control.specs.Trees.{IsControl, is_holder, is_in_container, belongs_to};

use crate::watched::MonitorInfo;
use rv_bind::Item;
use rv_model::{Name, Reactor, has_bit};
use std::marker::Model;

/// The switches, reactors and monitors that the control files show and change.
#[derive(Debug, Drop)]
pub struct Control {
    pub(crate) switches: u64,
    pub(crate) reactors: Vec<Reactor>,
    pub(crate) containers: Vec<Name>,
    pub(crate) monitors: Vec<MonitorInfo>,
    pub(crate) items: Vec<Item>,
}

impl Model for Control {
    ghost use Rattle.rv_control.specs.Trees.{ControlValue, IsControl};

    ghost Value = { ControlValue };

    ghost view = { λ c. record { switches = c.switches; reactors = c.reactors.items; containers = c.containers.items; monitors = c.monitors.items; items = c.items.items } };

    ghost invariant = { λ c. IsControl (record { switches = c.switches; reactors = c.reactors.items; containers = c.containers.items; monitors = c.monitors.items; items = c.items.items }) };
}

impl Control {
    /// What is known of all control files.
    pub(crate) fn assert_invariant(&self)
        ensures { IsControl self.now }
    {
        let _ = &self.monitors;
    }

    /// A bit for each monitor that is enabled, by its place; bit 32 for monitoring, 33 for reacting, 34 for halted.
    pub fn switches(&self) -> u64
        ensures { result ≡ self.now.switches }
    {
        self.switches
    }

    /// The reactor of the monitor at this place.
    pub fn reactor(&self, monitor: u8) -> Reactor
        requires { monitor < length self.now.monitors }
        ensures { slice_get self.now.reactors monitor ≡ Some result }
    {
        self.reactors[monitor as usize]
    }

    /// Whether the switch of this bit is on.
    pub(crate) fn has_switch(&self, bit: usize) -> bool
        ensures { result ≡ has_bit self.now.switches bit }
    {
        has_bit(self.switches, bit)
    }

    /// Whether the monitor of this place is in the container, or is the monitor itself.
    pub(crate) fn belongs_to(&self, item: Item, place: usize) -> bool
        ensures { result ≡ belongs_to self.now item place }
    {
        match item {
            Item::Container(container) => is_in_container(
                container,
                self.monitors.as_slice().get(place),
            ),
            Item::Monitor(monitor) => monitor as usize == place,
        }
    }
}

/// Whether the monitor, where there is one, is in the container.
fn is_in_container(container: u8, monitor: Option<&MonitorInfo>) -> bool
    ensures { result ≡ is_in_container container (option_copied monitor.entry) }
{
    match monitor {
        Some(monitor) => match monitor.container {
            Some(place) => place == container,
            None => false,
        },
        None => false,
    }
}
