//! The facts of a monitor besides its rules.
ghost use Rattle.std.specs.Prelude.{◌≡◌, ◌++◌, ◌+◌, ◌<◌, ◌^◌, [], OnOk, codes, length, slice_index, slice_index_or};
ghost use Rattle.rv_model.specs.Reports.{count_text, line_end};
ghost use Rattle.rv_report.specs.FormulaTexts.{labels_text};
ghost use Rattle.rv_table.specs.Rows.{node_in};
ghost use Rattle.rv_facts.specs.Shown.{numbered};
ghost use Rattle.rv_facts.specs.MonitorFacts.{answers_fact, atom_fact, edge_fact, edge_text, instances_fact, reached_facts, row_fact, row_front, share_fact, share_facts, share_size, state_fact, summary_fact};

use crate::counts::MonitorCounts;
use crate::pieces::{number_at, put_number, put_number_end};
use rv_model::{Automaton, Edge, Names, Spec};
use rv_report::{put_labels, put_name};
use rv_table::Table;
use rv_text::Line;
use std::alloc::AllocError;

/// What is counted of a specification.
#[derive(Clone, Copy, Drop)]
pub enum Share {
    /// The states of automata.
    States,
    /// The edges of automata.
    Edges,
    /// The rows of rules, from row 1 on.
    Rows,
    /// The atoms of rules.
    Atoms,
}

/// What the report tells of the monitor.
pub(crate) fn put_summary(out: &mut Line, name: &[u8], c: &MonitorCounts) -> Result<(), AllocError>
    ensures { OnOk result (out.new ≡ out.old ++ summary_fact name.now c.now) }
{
    out.text(name)?;
    out.text(b": instances ")?;
    out.number(c.instances)?;
    out.text(b", deliveries ")?;
    out.number(c.deliveries)?;
    out.text(b", failures ")?;
    out.number(c.failures)?;
    out.text(b", stopped ")?;
    out.number(c.stopped)?;
    out.text(b"\n")
}

/// Its instances that were started, that failed, and that still run.
pub(crate) fn put_instances(
    out: &mut Line,
    name: &[u8],
    c: &MonitorCounts,
) -> Result<(), AllocError>
    ensures { OnOk result (out.new ≡ out.old ++ instances_fact name.now c.now) }
{
    out.text(name)?;
    put_number(out, b": instances: started", c.instances_started)?;
    put_number(out, b", failed", c.instances_failed)?;
    put_number(out, b", running", c.instances_running)?;
    out.text(b"\n")
}

/// Its deliveries and ends, by their answers.
pub(crate) fn put_answers(out: &mut Line, name: &[u8], c: &MonitorCounts) -> Result<(), AllocError>
    ensures { OnOk result (out.new ≡ out.old ++ answers_fact name.now c.now) }
{
    out.text(name)?;
    put_number(out, b": answers: passed", c.passed)?;
    put_number(out, b", started", c.started)?;
    put_number(out, b", kept", c.kept)?;
    put_number(out, b", failed", c.failed)?;
    put_number_end(out, b", ended", c.ended)
}

/// The number at this place behind its name, and the end of a line.
fn put_place_end(
    out: &mut Line,
    name: &[u8],
    numbers: &[u64],
    place: usize,
) -> Result<(), AllocError>
    ensures { OnOk result (out.new ≡ out.old ++ numbered name.now (slice_index numbers.now place) ++ line_end) }
{
    put_number_end(out, name, number_at(numbers, place))
}

/// A state of an automaton.
fn put_state(
    out: &mut Line,
    name: &[u8],
    c: &MonitorCounts,
    states: &Names,
    state: usize,
) -> Result<(), AllocError>
    ensures { OnOk result (out.new ≡ out.old ++ state_fact name.now c.now states.now state) }
{
    out.text(name)?;
    out.text(b": state ")?;
    put_name(out, states, state)?;
    put_place_end(out, b": reached", &c.rows, state)
}

/// A name, and a blank.
fn put_name_blank(out: &mut Line, names: &Names, place: usize) -> Result<(), AllocError>
    ensures { OnOk result (out.new ≡ out.old ++ slice_index_or names.now place [] ++ codes " ") }
{
    put_name(out, names, place)?;
    out.text(b" ")
}

/// An edge by its names.
pub fn put_edge_names(out: &mut Line, automaton: &Automaton, edge: Edge) -> Result<(), AllocError>
    ensures { OnOk result (out.new ≡ out.old ++ edge_text automaton.now edge) }
{
    put_name_blank(out, &automaton.states, edge.from as usize)?;
    put_name_blank(out, &automaton.events, edge.event as usize)?;
    put_name(out, &automaton.states, edge.to as usize)
}

/// An edge of an automaton.
fn put_edge(
    out: &mut Line,
    name: &[u8],
    c: &MonitorCounts,
    automaton: &Automaton,
    place: usize,
) -> Result<(), AllocError>
    requires { place < length automaton.now.edges }
    ensures { OnOk result (out.new ≡ out.old ++ edge_fact name.now c.now automaton.now place) }
{
    out.text(name)?;
    out.text(b": edge ")?;
    put_edge_names(out, automaton, automaton.edges[place])?;
    put_place_end(out, b": taken", &c.edges, place)
}

/// The labels of a row, where the table is a formula's and has the row.
fn put_row_labels(
    out: &mut Line,
    atoms: &Names,
    table: &Table,
    row: usize,
) -> Result<(), AllocError>
    ensures { OnOk result (out.new ≡ out.old ++ labels_text atoms.now (node_in table.now row).labels) }
{
    if table.start() == 1 && row <= table.rows() as usize {
        put_labels(out, atoms, table, row as u32)
    } else {
        Ok(())
    }
}

/// A row of a rule, up to its labels.
fn put_row_front(out: &mut Line, name: &[u8], row: usize) -> Result<(), AllocError>
    requires { row + 1 < 2 ^ 64 }
    ensures { OnOk result (out.new ≡ out.old ++ row_front name.now row) }
{
    out.text(name)?;
    put_number(out, b": row", row as u64 + 1)?;
    out.text(b" [")
}

/// The row behind this index.
fn put_row(
    out: &mut Line,
    name: &[u8],
    c: &MonitorCounts,
    atoms: &Names,
    table: &Table,
    row: usize,
) -> Result<(), AllocError>
    requires { row + 1 < 2 ^ 64 }
    ensures { OnOk result (out.new ≡ out.old ++ row_fact name.now c.now atoms.now table.now row) }
{
    put_row_front(out, name, row)?;
    put_row_labels(out, atoms, table, row + 1)?;
    put_place_end(out, b"]: reached", &c.rows, row)
}

/// An atom of a rule.
fn put_atom(
    out: &mut Line,
    name: &[u8],
    c: &MonitorCounts,
    atoms: &Names,
    atom: usize,
) -> Result<(), AllocError>
    ensures { OnOk result (out.new ≡ out.old ++ atom_fact name.now c.now atoms.now atom) }
{
    out.text(name)?;
    out.text(b": atom ")?;
    put_name(out, atoms, atom)?;
    put_number(out, b": letters", c.letters)?;
    put_place_end(out, b", true", &c.atoms, atom)
}

/// How many there are of it.
fn share_size(share: Share, spec: &Spec, c: &MonitorCounts) -> usize
    ensures { result ≡ share_size share spec.now c.now }
{
    match spec {
        Spec::Da(automaton) => match share {
            Share::States => automaton.states.len(),
            Share::Edges => automaton.edges.len(),
            Share::Rows | Share::Atoms => 0,
        },
        Spec::Ltl(rule) => match share {
            Share::Rows => c.rows.len(),
            Share::Atoms => rule.atoms.len(),
            Share::States | Share::Edges => 0,
        },
    }
}

/// One of them.
fn put_one(
    out: &mut Line,
    name: &[u8],
    c: &MonitorCounts,
    table: &Table,
    spec: &Spec,
    share: Share,
    place: usize,
) -> Result<(), AllocError>
    requires there { place < share_size share spec.now c.now }
    requires room { place + 1 < 2 ^ 64 }
    ensures { OnOk result (out.new ≡ out.old ++ share_fact name.now c.now table.now spec.now share place) }
{
    match spec {
        Spec::Da(automaton) => match share {
            Share::States => put_state(out, name, c, &automaton.states, place),
            Share::Edges => put_edge(out, name, c, automaton, place),
            Share::Rows | Share::Atoms => Ok(()),
        },
        Spec::Ltl(rule) => match share {
            Share::Rows => put_row(out, name, c, &rule.atoms, table, place),
            Share::Atoms => put_atom(out, name, c, &rule.atoms, place),
            Share::States | Share::Edges => Ok(()),
        },
    }
}

/// All of them.
#[tactic(auto, using(rv_report::proofs::GrowingTexts::none_numbered, rv_report::proofs::GrowingTexts::more_numbered))]
fn put_each(
    out: &mut Line,
    name: &[u8],
    c: &MonitorCounts,
    table: &Table,
    spec: &Spec,
    share: Share,
) -> Result<(), AllocError>
    ensures { OnOk result (out.new ≡ out.old ++ share_facts name.now c.now table.now spec.now share) }
{
    'places: for place in 0..share_size(share, spec, c) {
        put_one(out, name, c, table, spec, share, place)?;
    }
    Ok(())
}

/// States and edges of an automaton, rows and atoms of a rule.
#[tactic(auto, unfolding(crate::specs::MonitorFacts::reached_facts))]
pub(crate) fn put_reached(
    out: &mut Line,
    name: &[u8],
    c: &MonitorCounts,
    table: &Table,
    spec: &Spec,
) -> Result<(), AllocError>
    ensures { OnOk result (out.new ≡ out.old ++ reached_facts name.now c.now table.now spec.now) }
{
    put_each(out, name, c, table, spec, Share::States)?;
    put_each(out, name, c, table, spec, Share::Edges)?;
    put_each(out, name, c, table, spec, Share::Rows)?;
    put_each(out, name, c, table, spec, Share::Atoms)
}
