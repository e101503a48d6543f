//! The canonical text of an automaton (this project's choice).
ghost use Rattle.std.specs.Prelude.{◌≡◌, ◌<◌, ◌++◌, All, OnOk, IfOk, length, map};
ghost use Rattle.std.specs.List.{flat_map};
ghost use Rattle.rv_model.specs.declared.automaton.Edge.{Edge as EdgeValue};
ghost use Rattle.rv_model.specs.Machine.{Machine};
ghost use Rattle.rv_model.specs.WellFormed.{IsAutomaton};
ghost use Rattle.rv_dot.specs.Dot.{dot_of};
ghost use Rattle.rv_dot.specs.Canonical.{state_line, node_line, arc_line, states_marked, arc_named, dot_text};

use crate::lines::{
    put_arc_line, put_head, put_initial_line, put_last, put_marker_line, put_node_line,
    put_state_line,
};
use rv_model::{Automaton, Edge, Names};
use rv_text::Line;
use std::alloc::{AllocError, Global};

/// Appends the declarations of all states.
fn put_states(out: &mut Line, states: &Names, marked: u32) -> Result<(), AllocError>
    ensures { OnOk result (out.new ≡ out.old ++ flat_map state_line (states_marked marked states.now)) }
{
    let mut place = 0;
    let mut bits = marked;
    'states: while place < states.len() {
        put_state_line(out, states.get(place).bytes(), bits % 2 == 1)?;
        bits /= 2;
        place += 1;
    }
    Ok(())
}

/// Appends the labels of all states.
fn put_nodes(out: &mut Line, states: &Names) -> Result<(), AllocError>
    ensures { OnOk result (out.new ≡ out.old ++ flat_map node_line states.now) }
{
    let mut place = 0;
    'states: while place < states.len() {
        put_node_line(out, states.get(place).bytes())?;
        place += 1;
    }
    Ok(())
}

/// Appends an edge by its names.
fn put_edge(out: &mut Line, states: &Names, events: &Names, edge: Edge) -> Result<(), AllocError>
    requires from { edge.from < length states.now }
    requires event { edge.event < length events.now }
    requires to { edge.to < length states.now }
    ensures { OnOk result (out.new ≡ out.old ++ arc_line (arc_named states.now events.now edge)) }
{
    let from = states.get(edge.from as usize).bytes();
    let event = events.get(edge.event as usize).bytes();
    let to = states.get(edge.to as usize).bytes();
    put_arc_line(out, from, event, to)
}

/// Appends all edges.
fn put_edges(
    out: &mut Line,
    states: &Names,
    events: &Names,
    edges: &[Edge],
) -> Result<(), AllocError>
    requires { All (λ (e : EdgeValue). (e.from < length states.now) × (e.event < length events.now) × (e.to < length states.now)) edges.now }
    ensures { OnOk result (out.new ≡ out.old ++ flat_map arc_line (map (arc_named states.now events.now) edges.now)) }
{
    'edges: for edge in edges {
        put_edge(out, states, events, *edge)?;
    }
    Ok(())
}

/// The canonical text of the automaton, which is read as the automaton again.
pub fn write_dot(alloc: Global, automaton: &Automaton) -> Result<Vec<u8>, AllocError>
    ensures text { IfOk result (λ v. v.items ≡ dot_text automaton.now) }
    ensures again { IfOk result (λ v. dot_of v.items ≡ Ok automaton.now) }
{
    let mut out = Line::new(alloc);
    let initial = automaton.states.get(0).bytes();
    put_head(&mut out)?;
    put_marker_line(&mut out, initial)?;
    put_states(&mut out, &automaton.states, automaton.marked)?;
    put_initial_line(&mut out, initial)?;
    put_nodes(&mut out, &automaton.states)?;
    put_edges(
        &mut out,
        &automaton.states,
        &automaton.events,
        &automaton.edges,
    )?;
    put_last(&mut out)?;
    Ok(out.into_bytes())
}

/// What is read of an automaton's canonical text is the automaton.
pub fn canonical_texts_are_read()
    ensures { (a : Machine) → IsAutomaton a → dot_of (dot_text a) ≡ Ok a }
{}
