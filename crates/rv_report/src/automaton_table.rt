//! The printed table of an automaton.
ghost use Rattle.std.specs.Prelude.{◌≡◌, ◌++◌, ◌<◌, length, IfOk, OnOk, flat_map};
ghost use Rattle.rv_report.specs.AutomatonTexts.{counts_text, state_mark, state_heading, edge_line, leaving_line, state_block, automaton_text};

use crate::names::put_name;
use crate::numbers::put_text_number;
use rv_model::{Automaton, Edge, Names, has_bit};
use rv_text::Line;
use std::alloc::{AllocError, Global};

/// How many states and events there are.
fn put_counts(out: &mut Line, states: usize, events: usize) -> Result<(), AllocError>
    ensures { OnOk result (out.new ≡ out.old ++ counts_text states events) }
{
    put_text_number(out, b"states ", states as u64)?;
    put_text_number(out, b", events ", events as u64)?;
    out.text(b"\n")
}

/// Whether the state is marked.
fn put_mark(out: &mut Line, is_marked: bool) -> Result<(), AllocError>
    ensures { OnOk result (out.new ≡ out.old ++ state_mark is_marked) }
{
    if is_marked {
        out.text(b" marked")
    } else {
        Ok(())
    }
}

/// A line: the state's row, its name, and whether it is marked.
fn put_state_line(out: &mut Line, automaton: &Automaton, state: usize) -> Result<(), AllocError>
    requires { state < 31 }
    ensures { OnOk result (out.new ≡ out.old ++ state_heading automaton.now state) }
{
    out.number((state + 1) as u64)?;
    out.text(b" ")?;
    put_name(out, &automaton.states, state)?;
    put_mark(out, has_bit(automaton.marked as u64, state))?;
    out.text(b"\n")
}

/// A line: the event, and the row of the target.
fn put_edge_line(out: &mut Line, events: &Names, edge: Edge) -> Result<(), AllocError>
    ensures { OnOk result (out.new ≡ out.old ++ edge_line events.now edge) }
{
    out.text(b"  ")?;
    put_name(out, events, edge.event as usize)?;
    put_text_number(out, b" ", edge.to as u64 + 1)?;
    out.text(b"\n")
}

/// The lines of the edges that leave the state.
fn put_edges(out: &mut Line, events: &Names, state: usize, edges: &[Edge]) -> Result<(), AllocError>
    ensures { OnOk result (out.new ≡ out.old ++ flat_map (leaving_line events.now state) edges.now) }
{
    'edges: for edge in edges {
        if edge.from as usize == state {
            put_edge_line(out, events, *edge)?;
        }
    }
    Ok(())
}

/// A state and its edges.
fn put_state(out: &mut Line, automaton: &Automaton, state: usize) -> Result<(), AllocError>
    requires { state < 31 }
    ensures { OnOk result (out.new ≡ out.old ++ state_block automaton.now state) }
{
    put_state_line(out, automaton, state)?;
    put_edges(out, &automaton.events, state, &automaton.edges)
}

/// Appends the table: the states in order, each with its edges.
#[tactic(auto, using(crate::proofs::GrowingTexts::none_numbered, crate::proofs::GrowingTexts::more_numbered))]
fn put_automaton(out: &mut Line, automaton: &Automaton) -> Result<(), AllocError>
    ensures { OnOk result (out.new ≡ out.old ++ automaton_text automaton.now) }
{
    put_counts(out, automaton.states.len(), automaton.events.len())?;
    'states: for state in 0..automaton.states.len() {
        put_state(out, automaton, state)?;
    }
    Ok(())
}

/// The table of an automaton, for people to read: what `rv table da` prints.
///
/// The first line is as `states 2, events 3`. Each state, in order, has a line as
/// `1 preemptive marked`: its row, its name, and whether it is marked. Below it each edge that
/// leaves it has a line as `  preempt_disable 2`: the event, and the target's row. State k is row
/// k + 1. A state or an event without a name is shown as no text.
pub fn automaton_text(alloc: Global, automaton: &Automaton) -> Result<Vec<u8>, AllocError>
    ensures { IfOk result (λ text. text.items ≡ automaton_text automaton.now) }
{
    let mut line = Line::new(alloc);
    put_automaton(&mut line, automaton)?;
    Ok(line.into_bytes())
}
