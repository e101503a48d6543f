//! What each CPU has to do, and what the control actor changes.
ghost use Rattle.std.specs.Prelude.{◌≡◌, ◌↔◌, Some};
ghost use Rattle.rv_model.specs.declared.work.Scope.{Scope};
ghost use Rattle.rv_model.specs.Words.{scope_name, scope_named};

use crate::hit::Hit;
use std::marker::Model;

/// Which instances a monitor has.
#[derive(Clone, Copy, Debug, Drop, PartialEq, Eq)]
pub enum Scope {
    /// One.
    Global,
    /// One for each CPU.
    Cpu,
    /// One for each task.
    Task,
}

impl Scope {
    /// All three.
    pub const ALL: [Scope; 3] = [Scope::Global, Scope::Cpu, Scope::Task];

    /// As it is written.
    pub fn name(self) -> &'static [u8]
        ensures { result.now ≡ scope_name self }
    {
        match self {
            Scope::Global => b"global",
            Scope::Cpu => b"cpu",
            Scope::Task => b"task",
        }
    }

    /// The scope that is written so.
    pub fn from_name(name: &[u8]) -> Option<Scope>
        ensures value { result ≡ scope_named name.now }
        ensures each { (scope : Scope) → (result ≡ Some scope) ↔ (name.now ≡ scope_name scope) }
    {
        Scope::ALL.into_iter().find(|scope| scope.name() == name)
    }
}

/// The deliveries `from` to `to`, without the last, that a line of the trace makes on its CPU.
#[derive(Clone, Copy, Debug, Drop, PartialEq, Eq)]
pub struct Turn {
    /// From 1.
    pub line: u32,
    pub from: u32,
    pub to: u32,
}

/// One rule that fired on one line.
#[derive(Clone, Copy, Debug, Drop, PartialEq, Eq)]
pub struct Delivery {
    /// Its number among all deliveries of the trace, from 0, by line and then by rule.
    pub order: u32,
    pub monitor: u8,
    pub instance: u32,
    pub hit: Hit,
}

/// All that one CPU has to do. The turns name the deliveries in order, each once.
#[derive(Drop)]
pub struct CpuWork {
    pub cpu: u8,
    pub turns: Vec<Turn>,
    pub deliveries: Vec<Delivery>,
}

impl Model for CpuWork {
    ghost use Rattle.rv_model.specs.Works.{Work, IsWork};

    ghost Value = { Work };

    ghost view = { λ w. record { cpu = w.cpu; turns = w.turns.items; deliveries = w.deliveries.items } };

    ghost invariant = { λ w. IsWork (record { cpu = w.cpu; turns = w.turns.items; deliveries = w.deliveries.items }) };
}

/// What one control command makes of the switches: bits that go off, monitors that are cleared, bits that go on.
#[derive(Clone, Copy, Debug, Drop, PartialEq, Eq)]
pub struct Change {
    pub lower: u64,
    pub clear: u32,
    pub raise: u64,
}
