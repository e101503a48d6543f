//! Deterministic automata (Linux, Documentation/trace/rv/deterministic_automata.rst).

use crate::name::Names;
use std::marker::Model;

/// From one state to another by an event, each by its place in its list.
#[derive(Clone, Copy, Debug, Drop, PartialEq, Eq)]
pub struct Edge {
    pub from: u8,
    pub event: u8,
    pub to: u8,
}

/// At most 31 states and 64 events. The first state is the initial one, the others and the events ascend by bytes.
#[derive(Drop)]
pub struct Automaton {
    pub states: Names,
    pub events: Names,
    /// Ascending by `from`, then `event`.
    pub edges: Vec<Edge>,
    /// Bit k for state k. It is kept and printed, and takes no part in a verdict.
    pub marked: u32,
}

impl Model for Automaton {
    ghost use Rattle.rv_model.specs.Machine.{Machine};

    ghost Value = { Machine };

    ghost use Rattle.rv_model.specs.WellFormed.{IsAutomaton};

    ghost view = { λ a. record { states = a.states; events = a.events; edges = a.edges.items; marked = a.marked } };

    ghost invariant = { λ a. IsAutomaton (record { states = a.states; events = a.events; edges = a.edges.items; marked = a.marked }) };
}
