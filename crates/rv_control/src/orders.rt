//! What a text written to the file of enabled monitors asks.
ghost use Rattle.std.specs.Prelude.{◌≡◌, option_map, option_and_then};
ghost use Rattle.rv_control.specs.declared.orders.Order.TheVariants as orders;
ghost use Rattle.rv_control.specs.Paths.{item_named};
ghost use Rattle.rv_control.specs.Effects.{order_of, enabling, disabling, disabling_all, turning, replacing, appending, ordering};

use crate::control::Control;
use crate::sets::Those;
use rv_bind::Item;
use rv_model::Change;

/// What is asked of the monitors.
#[derive(Clone, Copy, Drop)]
pub(crate) enum Order {
    /// No more than the file asks by itself.
    Nothing,
    Enable(Item),
    Disable(Item),
}

impl Control {
    /// The order that enables what has this name.
    fn enable(&self, name: &[u8]) -> Option<Order>
        ensures { result ≡ option_map orders.Enable (item_named self.now name.now) }
    {
        Some(Order::Enable(self.item_named(name)?))
    }

    /// The order that disables what has this name.
    fn disable(&self, name: &[u8]) -> Option<Order>
        ensures { result ≡ option_map orders.Disable (item_named self.now name.now) }
    {
        Some(Order::Disable(self.item_named(name)?))
    }

    /// The order that a text spells.
    fn order_of(&self, text: &[u8]) -> Option<Order>
        ensures { result ≡ order_of self.now text.now }
    {
        match text {
            [] => Some(Order::Nothing),
            [first, name @ ..] => {
                if *first == b'!' {
                    self.disable(name)
                } else {
                    self.enable(text)
                }
            }
        }
    }

    /// Clears and enables those of the item's monitors that are not enabled.
    fn enabling(&self, item: Item) -> Change
        ensures { result ≡ enabling self.now item }
    {
        let fresh = self.set(Some(item), Those::Disabled);
        Change {
            lower: 0,
            clear: fresh,
            raise: fresh as u64,
        }
    }

    /// Disables those of the item's monitors that are enabled.
    fn disabling(&self, item: Item) -> Change
        ensures { result ≡ disabling self.now item }
    {
        Change {
            lower: self.set(Some(item), Those::Enabled) as u64,
            clear: 0,
            raise: 0,
        }
    }

    /// Enables or disables the item's monitors.
    pub(crate) fn turning(&self, item: Item, on: bool) -> Change
        ensures { result ≡ turning self.now item on }
    {
        if on {
            self.enabling(item)
        } else {
            self.disabling(item)
        }
    }

    /// Disables all monitors, and then clears and enables the set.
    fn replacing_by(&self, fresh: u32) -> Change
        ensures { result ≡ record (disabling_all self.now) { clear = fresh; raise = fresh } }
    {
        Change {
            lower: self.set(None, Those::Enabled) as u64,
            clear: fresh,
            raise: fresh as u64,
        }
    }

    /// The change of an order that is not appended.
    fn replacing(&self, order: Order) -> Change
        ensures { result ≡ replacing self.now order }
    {
        match order {
            Order::Enable(item) => self.replacing_by(self.set(Some(item), Those::All)),
            Order::Nothing | Order::Disable(_) => self.replacing_by(0),
        }
    }

    /// The change of an order that is appended, where it may be.
    fn appending(&self, order: Order) -> Option<Change>
        ensures { result ≡ appending self.now order }
    {
        match order {
            Order::Nothing => None,
            Order::Enable(item) => Some(self.enabling(item)),
            Order::Disable(item) => Some(self.disabling(item)),
        }
    }

    /// The change that a text asks of the enabled monitors.
    pub(crate) fn ordering(&self, text: &[u8], append: bool) -> Option<Change>
        ensures { result ≡ option_and_then (ordering self.now append) (order_of self.now text.now) }
    {
        let order = self.order_of(text)?;
        if append {
            self.appending(order)
        } else {
            Some(self.replacing(order))
        }
    }
}
