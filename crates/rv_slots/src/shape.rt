//! How many slots each monitor has, and how they are numbered: by monitor, then by instance.
ghost use Rattle.std.specs.Prelude.{◌≡◌, ◌<◌, ◌≤◌, ◌+◌, map, length, sum, take, slice_index, IfOk};
ghost use Rattle.rv_model.specs.Setups.{monitor_of, slot_of};
ghost use Rattle.rv_slots.specs.Shapes.{count_of};

use crate::tasks::MAX_TASKS;
use rv_model::Scope;
use std::alloc::{AllocError, Global};
use std::marker::Model;

/// The most CPUs that a run may have.
pub const CPUS: u32 = 64;

/// The most monitors that a run may have.
pub const MAX_MONITORS: usize = 32;

/// The slots of as many monitors of as many tasks as there may be.
pub const MAX_SLOTS: u32 = 2_097_152;

/// For each monitor its number of slots.
#[derive(Drop)]
pub struct Shape {
    counts: Vec<u32>,
    /// For each monitor its first slot, and behind them how many slots there are.
    bases: Vec<u32>,
}

impl Model for Shape {
    ghost use Rattle.std.specs.Prelude.{List, ℕ, ◌≤◌, sum, length};
    ghost use Rattle.rv_slots.specs.Shapes.{AreBases};
    ghost use Rattle.rv_slots.specs.declared.shape.TheConstants.{MAX_MONITORS, MAX_SLOTS};

    ghost Value = { List ℕ };

    ghost view = { λ s. s.counts.items };

    ghost invariant = { λ s. (length s.counts.items ≤ MAX_MONITORS) × (sum s.counts.items ≤ MAX_SLOTS) × AreBases s.counts.items s.bases.items };
}

/// An instance of a monitor, which has a slot.
#[derive(Clone, Copy, Debug, PartialEq, Eq)]
pub struct Place {
    pub monitor: u8,
    pub instance: u32,
}

/// How many slots a monitor of the scope has.
fn count_of(scope: Scope, tasks: u32) -> u32
    ensures { result ≡ count_of tasks scope }
{
    match scope {
        Scope::Global => 1,
        Scope::Cpu => CPUS,
        Scope::Task => tasks,
    }
}

impl Shape {
    /// A global monitor has one slot, a cpu monitor one a CPU, and a task monitor one a task.
    pub fn new(alloc: Global, scopes: &[Scope], tasks: u32) -> Result<Shape, AllocError>
        requires monitors { length scopes.now ≤ MAX_MONITORS }
        requires tasks { tasks ≤ MAX_TASKS }
        ensures { IfOk result (λ shape. shape ≡ map (count_of tasks) scopes.now) }
    {
        let mut counts = Vec::with_capacity(alloc, scopes.len())?;
        let mut bases = Vec::with_capacity(alloc, scopes.len() + 1)?;
        let mut slots: u32 = 0;
        bases.push(slots)?;
        for scope in scopes {
            let count = count_of(*scope, tasks);
            slots += count;
            counts.push(count)?;
            bases.push(slots)?;
        }
        Ok(Shape { counts, bases })
    }

    /// How many monitors there are.
    pub fn monitors(&self) -> u8
        ensures { result ≡ length self.now }
    {
        self.counts.len() as u8
    }

    /// How many slots a monitor has.
    pub fn instances(&self, monitor: u8) -> u32
        requires { monitor < length self.now }
        ensures { result ≡ slice_index self.now monitor }
    {
        self.counts[monitor as usize]
    }

    /// How many slots there are.
    pub fn slots(&self) -> u32
        ensures sum { result ≡ sum self.now }
        ensures few { result ≤ MAX_SLOTS }
    {
        self.bases[self.counts.len()]
    }

    /// The slot of an instance of a monitor.
    pub fn slot(&self, monitor: u8, instance: u32) -> u32
        requires monitor { monitor < length self.now }
        requires instance { instance < slice_index self.now monitor }
        ensures slot { result ≡ slot_of self.now monitor instance }
        ensures range { result < sum self.now }
        ensures monitor { monitor_of self.now result ≡ monitor }
    {
        self.bases[monitor as usize] + instance
    }

    /// The monitor that has the slot.
    fn monitor(&self, slot: u32) -> u8
        requires { slot < sum self.now }
        ensures monitors { result < length self.now }
        ensures first { sum (take result self.now) ≤ slot }
        ensures last { slot < sum (take (result + 1) self.now) }
    {
        let after = self.bases.partition_point(|base| *base <= slot);
        (after - 1) as u8
    }

    /// The instance of a monitor that has the slot.
    pub fn place(&self, slot: u32) -> Place
        requires { slot < sum self.now }
        ensures monitor { result.monitor ≡ monitor_of self.now slot }
        ensures monitors { result.monitor < length self.now }
        ensures instances { result.instance < slice_index self.now result.monitor }
        ensures slot { slot_of self.now result.monitor result.instance ≡ slot }
    {
        let monitor = self.monitor(slot);
        Place {
            monitor,
            instance: slot - self.bases[monitor as usize],
        }
    }
}
