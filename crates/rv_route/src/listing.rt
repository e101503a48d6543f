//! The deliveries of a trace as one list, in the order of its lines.
ghost use Rattle.std.specs.Prelude.{◌≡◌, ◌<◌, ◌≤◌, map, length, slice_index_or, IfOk};
ghost use Rattle.rv_bind.specs.declared.limits.TheConstants.{MAX_RULES};
ghost use Rattle.rv_route.specs.Listing.{ListedDelivery, target_of};

use rv_bind::On;
use rv_model::{Delivery, Hit};
use rv_slots::Tasks;
use std::alloc::{AllocError, Global};
use std::marker::Model;

/// What a rule hits.
#[derive(Clone, Copy, Drop)]
pub struct Target {
    pub monitor: u8,
    pub hit: Hit,
}

/// A delivery in 8 bytes: its trace line, its instance, its rule by its place among the rules, and its CPU.
#[derive(Clone, Copy, Drop)]
pub struct Listed {
    pub line: u32,
    pub instance: u16,
    pub rule: u8,
    pub cpu: u8,
}

/// All deliveries of a trace, and what the rules hit. The number of a delivery is its place.
#[derive(Drop)]
pub struct DeliveryList {
    pub(crate) targets: Vec<Target>,
    pub(crate) items: Vec<Listed>,
}

impl Model for DeliveryList {
    ghost use Rattle.std.specs.Prelude.{◌<◌, ◌≤◌, List, length, All};
    ghost use Rattle.rv_route.specs.Listing.{ListedDelivery, listed_from};

    ghost Value = { List ListedDelivery };

    ghost view = { λ l. listed_from l.targets.items 0 l.items.items };

    ghost invariant = { λ l. (length l.items.items ≤ 4000000) × All (λ item. item.rule < length l.targets.items) l.items.items };
}

/// The tasks by first use, and all deliveries in the order of the trace.
#[derive(Drop)]
pub struct RoutedList {
    pub tasks: Tasks,
    pub list: DeliveryList,
}

/// What each rule hits.
pub(crate) fn targets_of(alloc: Global, rules: &[On]) -> Result<Vec<Target>, AllocError>
    requires { length rules.now ≤ MAX_RULES }
    ensures targets { IfOk result (λ targets. targets.items ≡ map target_of rules.now) }
    ensures few { IfOk result (λ targets. length targets.items ≤ MAX_RULES) }
{
    let mut targets = Vec::with_capacity(alloc, rules.len())?;
    for rule in rules {
        targets.push(Target {
            monitor: rule.monitor,
            hit: rule.hit,
        })?;
    }
    Ok(targets)
}

impl DeliveryList {
    /// How many deliveries there are.
    pub fn len(&self) -> usize
        ensures { result ≡ length self.now }
    {
        self.items.len()
    }

    /// The line of the delivery at this place.
    #[inline(always)]
    pub fn line(&self, place: usize) -> u32
        requires { place < length self.now }
        ensures { (d : ListedDelivery) → result ≡ (slice_index_or self.now place d).line }
    {
        self.items[place].line
    }

    /// The CPU of the delivery at this place.
    #[inline(always)]
    pub fn cpu(&self, place: usize) -> u8
        requires { place < length self.now }
        ensures { (d : ListedDelivery) → result ≡ (slice_index_or self.now place d).cpu }
    {
        self.items[place].cpu
    }

    /// The delivery at this place.
    #[inline(always)]
    pub fn delivery(&self, place: usize) -> Delivery
        requires { place < length self.now }
        ensures is { (d : ListedDelivery) → result ≡ (slice_index_or self.now place d).delivery }
        ensures order { result.order ≡ place }
    {
        let item = self.items[place];
        let target = self.targets[item.rule as usize];
        Delivery {
            order: place as u32,
            monitor: target.monitor,
            instance: item.instance as u32,
            hit: target.hit,
        }
    }

    /// What the delivery at this place hits.
    #[inline(always)]
    pub fn hit(&self, place: usize) -> &Hit
        requires { place < length self.now }
        ensures { (d : ListedDelivery) → result.now ≡ (slice_index_or self.now place d).delivery.hit }
    {
        let item = self.items[place];
        &self.targets[item.rule as usize].hit
    }
}
