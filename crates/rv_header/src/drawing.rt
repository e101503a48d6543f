//! What a text of C tables draws, as the text of an automaton file: so the reader of those decides what an automaton is.
ghost use Rattle.std.specs.Prelude.{◌≡◌, ◌++◌, IfOk, OnOk, map, codes};
ghost use Rattle.std.specs.List.{flat_map};
ghost use Rattle.std.specs.Str.{bytes_eq};
ghost use Rattle.rv_dot.specs.Canonical.{Drawing as Drawn, state_line, node_line, arc_line, drawing_text};
ghost use Rattle.rv_dot.specs.inner.Held.{bytes_of};
ghost use Rattle.rv_header.specs.inner.Taking.{untagged, cell_arcs, row_arcs, rows_arcs, members_in, marked_by, drawing_by};

use crate::taking::{members_in, text_at};
use rv_dot::lines::{
    put_arc_line, put_head, put_initial_line, put_last, put_marker_line, put_node_line,
    put_state_line,
};
use rv_text::Line;
use std::alloc::{AllocError, Global};
use std::marker::Model;

/// What a text says, by names: the rows are not yet taken apart.
#[derive(Drop)]
pub(crate) struct Drawing<'s, 'a> {
    /// The name that the C names end with.
    pub name: &'a [u8],
    pub states: &'s [&'a [u8]],
    pub events: &'s [&'a [u8]],
    pub rows: &'s [&'a [u8]],
    pub marks: &'s [&'a [u8]],
}

impl<'s, 'a> Model for Drawing<'s, 'a> {
    ghost Value = { Drawn };

    ghost view = { λ d. drawing_by d.name.now (map bytes_of d.states.now) (map bytes_of d.events.now) (map bytes_of d.rows.now) (map bytes_of d.marks.now) };
}

/// The state of a C name.
fn untagged<'a>(name: &[u8], text: &'a [u8]) -> &'a [u8]
    ensures { result.now ≡ untagged name.now text.now }
{
    &text[..text.len().saturating_sub(name.len() + 1)]
}

/// Appends the edge of a cell, where it has one.
fn put_cell(
    out: &mut Line,
    name: &[u8],
    from: &[u8],
    event: &[u8],
    cell: &[u8],
) -> Result<(), AllocError>
    ensures { OnOk result (out.new ≡ out.old ++ flat_map arc_line (cell_arcs name.now from.now event.now cell.now)) }
{
    if cell == b"INVALID_STATE".as_slice() {
        return Ok(());
    }
    put_arc_line(out, from, event, untagged(name, cell))
}

/// Appends the edges of a row.
fn put_row(
    out: &mut Line,
    name: &[u8],
    events: &[&[u8]],
    from: &[u8],
    row: &[&[u8]],
) -> Result<(), AllocError>
    ensures { OnOk result (out.new ≡ out.old ++ flat_map arc_line (row_arcs name.now (map bytes_of events.now) from.now (map bytes_of row.now))) }
{
    'events: for place in 0..events.len().min(row.len()) {
        put_cell(out, name, from, text_at(events, place), text_at(row, place))?;
    }
    Ok(())
}

/// Appends the edges of a row that is not yet taken apart.
fn put_members(
    alloc: Global,
    out: &mut Line,
    name: &[u8],
    events: &[&[u8]],
    from: &[u8],
    row: &[u8],
) -> Result<(), AllocError>
    ensures { OnOk result (out.new ≡ out.old ++ flat_map arc_line (row_arcs name.now (map bytes_of events.now) from.now (members_in row.now))) }
{
    let cells = members_in(alloc, row)?;
    put_row(out, name, events, from, &cells)?;
    Ok(())
}

/// Appends the edges of all rows.
fn put_rows(
    alloc: Global,
    out: &mut Line,
    name: &[u8],
    events: &[&[u8]],
    states: &[&[u8]],
    rows: &[&[u8]],
) -> Result<(), AllocError>
    ensures { OnOk result (out.new ≡ out.old ++ flat_map arc_line (rows_arcs name.now (map bytes_of events.now) (map bytes_of states.now) (map bytes_of rows.now))) }
{
    'states: for place in 0..states.len().min(rows.len()) {
        let from = text_at(states, place);
        put_members(alloc, out, name, events, from, text_at(rows, place))?;
    }
    Ok(())
}

fn is_marked(mark: &[u8]) -> bool
    ensures { result ≡ bytes_eq mark.now (codes "1") }
{
    mark == b"1".as_slice()
}

/// Appends the declarations of all states.
fn put_states(out: &mut Line, states: &[&[u8]], marks: &[&[u8]]) -> Result<(), AllocError>
    ensures { OnOk result (out.new ≡ out.old ++ flat_map state_line (marked_by (map bytes_of states.now) (map bytes_of marks.now))) }
{
    'states: for place in 0..states.len().min(marks.len()) {
        let is_marked = is_marked(text_at(marks, place));
        put_state_line(out, text_at(states, place), is_marked)?;
    }
    Ok(())
}

/// Appends the labels of the states that have a mark.
fn put_nodes(out: &mut Line, states: &[&[u8]], marks: &[&[u8]]) -> Result<(), AllocError>
    ensures { OnOk result (out.new ≡ out.old ++ flat_map node_line (map (λ s. s.name) (marked_by (map bytes_of states.now) (map bytes_of marks.now)))) }
{
    'states: for place in 0..states.len().min(marks.len()) {
        put_node_line(out, text_at(states, place))?;
    }
    Ok(())
}

/// Appends the text of an automaton file.
fn put_drawing(alloc: Global, out: &mut Line, drawing: Drawing<'_, '_>) -> Result<(), AllocError>
    ensures { OnOk result (out.new ≡ out.old ++ drawing_text drawing.entry) }
{
    let initial = text_at(drawing.states, 0);
    put_head(out)?;
    put_marker_line(out, initial)?;
    put_states(out, drawing.states, drawing.marks)?;
    put_initial_line(out, initial)?;
    put_nodes(out, drawing.states, drawing.marks)?;
    put_rows(
        alloc,
        out,
        drawing.name,
        drawing.events,
        drawing.states,
        drawing.rows,
    )?;
    put_last(out)?;
    Ok(())
}

/// The text of an automaton file.
pub(crate) fn drawn(alloc: Global, drawing: Drawing<'_, '_>) -> Result<Line, AllocError>
    ensures { IfOk result (λ text. text ≡ drawing_text drawing.entry) }
{
    let mut out = Line::new(alloc);
    put_drawing(alloc, &mut out, drawing)?;
    Ok(out)
}
