//! The rows of the transition function.
ghost use Rattle.std.specs.Prelude.{◌≡◌, ◌++◌, IfOk, OnOk};
ghost use Rattle.std.specs.List.{find};
ghost use Rattle.rv_model.specs.declared.automaton.Edge.{Edge as EdgeValue};
ghost use Rattle.rv_header.specs.HeaderText.{target_of, cell_text, cells, row_text, function_text};

use crate::members::{name_at, put_list, put_tagged};
use rv_model::{Automaton, Edge, Name, Names};
use rv_text::Line;
use std::alloc::{AllocError, Global};

/// Where the event leads from the state.
fn target_of(edges: &[Edge], from: usize, event: usize) -> Option<u8>
    ensures { result ≡ target_of edges.now from event }
{
    edges
        .iter()
        .find(|edge| edge.from as usize == from && edge.event as usize == event)
        .map(|edge| edge.to)
}

/// The cell of this target.
fn cell(alloc: Global, name: &[u8], states: &Names, target: Option<u8>) -> Result<Name, AllocError>
    ensures { IfOk result (λ text. text ≡ cell_text name.now states.now target) }
{
    match target {
        None => Name::new(alloc, b"INVALID_STATE"),
        Some(to) => {
            let mut text = Line::new(alloc);
            put_tagged(&mut text, name, name_at(states, to as usize))?;
            Name::new(alloc, text.bytes())
        }
    }
}

/// The cells of a state.
#[tactic(auto, using(crate::proofs::ListSteps::cut_none))]
fn cells(
    alloc: Global,
    name: &[u8],
    automaton: &Automaton,
    from: usize,
) -> Result<Names, AllocError>
    ensures { IfOk result (λ row. row ≡ cells name.now automaton.now from) }
{
    let mut row = Names::new(alloc);
    let mut event = 0;
    'events: while event < automaton.events.len() {
        let target = target_of(&automaton.edges, from, event);
        row.push(cell(alloc, name, &automaton.states, target)?)?;
        event += 1;
    }
    Ok(row)
}

/// Appends the row of a state.
fn put_row(
    alloc: Global,
    out: &mut Line,
    name: &[u8],
    automaton: &Automaton,
    from: usize,
) -> Result<(), AllocError>
    ensures { OnOk result (out.new ≡ out.old ++ row_text (cells name.now automaton.now from)) }
{
    let row = cells(alloc, name, automaton, from)?;
    out.text(b"\t\t")?;
    put_list(out, &row)?;
    out.text(b",\n")
}

/// Appends the rows of all states.
#[tactic(auto, using(crate::proofs::ListSteps::cut_none))]
pub(crate) fn put_rows(
    alloc: Global,
    out: &mut Line,
    name: &[u8],
    automaton: &Automaton,
) -> Result<(), AllocError>
    ensures { OnOk result (out.new ≡ out.old ++ function_text name.now automaton.now) }
{
    let mut from = 0;
    'states: while from < automaton.states.len() {
        put_row(alloc, out, name, automaton, from)?;
        from += 1;
    }
    Ok(())
}
