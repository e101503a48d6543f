//! What a bindings file says, as plain data (docs/FORMATS.md, "Bindings").

use rv_model::{Hit, Name, Names, Reactor, Scope, Spec};
use rv_table::Table;
use std::marker::Model;

/// A condition on a field of a trace line. It fails where the line does not have the field.
#[derive(Drop)]
pub enum Test {
    /// The field has this value.
    Is { field: Name, value: Name },
    /// The field has another value, maybe an empty one.
    IsNot { field: Name, value: Name },
}

/// An `on` line: which trace lines hit a monitor's instance, and how. Contracts see the tests as a list.
#[derive(Drop)]
pub struct On {
    /// The index of the monitor.
    pub monitor: u8,
    /// The name of the trace event.
    pub event: Name,
    /// For a task monitor: the field whose value is the task's pid; else the line's own pid counts.
    pub by: Option<Name>,
    /// All of them have to hold.
    pub tests: Vec<Test>,
    pub hit: Hit,
}

impl Model for On {
    ghost use Rattle.rv_bind.specs.RuleValues.{OnValue};

    ghost Value = { OnValue };

    ghost view = { λ o. record { monitor = o.monitor; event = o.event; by = o.by; tests = o.tests.items; hit = o.hit } };
}

/// A specification, the instances that it has, and what is done about a failure.
#[derive(Drop)]
pub struct Monitor {
    pub name: Name,
    /// The index of the container, if the monitor is in one.
    pub container: Option<u8>,
    pub scope: Scope,
    pub spec: Spec,
    /// The specification's file, as the bindings spell it.
    pub file: Name,
    /// The atoms of a rule that start true, a bit for each atom's index; 0 for an automaton.
    pub starting: u32,
    pub reactor: Reactor,
    /// Whether it is enabled when a run begins.
    pub enabled: bool,
}

/// An item at the top of the bindings: a container, or a monitor that is in none.
#[derive(Clone, Copy, Debug, Drop, PartialEq, Eq)]
pub enum Item {
    /// The index of the container.
    Container(u8),
    /// The index of the monitor.
    Monitor(u8),
}

/// All that a bindings file says. Each list is in the order of its lines.
pub struct Bindings {
    pub containers: Names,
    pub monitors: Vec<Monitor>,
    pub rules: Vec<On>,
    /// The containers and the monitors outside containers, in the order of their lines.
    pub items: Vec<Item>,
}

/// Taken apart once, here, so that what drops one has nothing to prove of its parts.
impl Drop for Bindings {
    fn drop(self) {
        let Bindings {
            containers: _,
            monitors: _,
            rules: _,
            items: _,
        } = self;
    }
}

/// Accepted bindings, and a table for each monitor, which means the monitor's specification.
#[derive(Drop)]
pub struct Bound {
    pub bindings: Bindings,
    /// At each index the table of the monitor at that index.
    pub tables: Vec<Table>,
}

/// Accepted bindings, and the text that they were read of.
#[derive(Drop)]
pub struct BoundText {
    /// All bytes of the file.
    pub text: Vec<u8>,
    pub bound: Bound,
}
