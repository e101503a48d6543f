//! The findings about a monitor's specification: what no line brings or sets, and what none did.
ghost use Rattle.std.specs.Prelude.{◌≡◌, ◌++◌, ◌<◌, [], IfOk, OnOk, codes, length, slice_index_or};
ghost use Rattle.rv_facts.specs.BindingLines.{begin_lines};
ghost use Rattle.rv_facts.specs.MonitorFacts.{edge_text};
ghost use Rattle.rv_facts.specs.Shown.{in_brackets};
ghost use Rattle.rv_findings.specs.MonitorFindings.{atom_finding, atom_findings_by, atom_text, edge_finding, event_finding, part_findings, part_size, place_finding, setting_lines};

use crate::finding::{Asked, Finding, OwnRule, add, first_or, is_nothing, least_of, lines_where};
use rv_facts::{Begun, BindingLines, MonitorCounts, number_at, put_brackets, put_edge_names};
use rv_model::{Automaton, Edge, Name, Names, Spec};
use rv_report::put_name;
use rv_text::Line;
use std::alloc::{AllocError, Global};

/// What is told of place by place.
#[derive(Clone, Copy, Drop)]
pub(crate) enum SpecPart {
    /// The events of an automaton that no line brings.
    Events,
    /// The edges of an automaton that were not taken.
    Edges,
    /// The atoms of a rule that no line sets, or that no letter has.
    Atoms,
}

/// What is told of an event that no line brings.
fn event_text(alloc: Global, name: &[u8], events: &Names, event: usize) -> Result<Line, AllocError>
    ensures { IfOk result (λ text. text ≡ codes "event-not-bound: no line brings " ++ slice_index_or events.now event [] ++ codes " to " ++ name.now) }
{
    let mut text = Line::new(alloc);
    text.text(b"event-not-bound: no line brings ")?;
    put_name(&mut text, events, event)?;
    text.text(b" to ")?;
    text.text(name)?;
    Ok(text)
}

/// No line brings the event.
fn add_event(
    alloc: Global,
    found: &mut Vec<Finding>,
    name: &[u8],
    line: u32,
    own: &[OwnRule],
    events: &Names,
    event: usize,
) -> Result<(), AllocError>
    ensures { OnOk result (found.new.items ≡ found.old.items ++ event_finding name.now line own.now events.now event) }
{
    let lines = lines_where(alloc, Asked::Brings(event), own)?;
    if !is_nothing(&lines) {
        return Ok(());
    }
    let text = event_text(alloc, name, events, event)?;
    add(found, line, text)
}

/// An atom of the monitor, behind a text.
fn atom_text(alloc: Global, front: &[u8], name: &[u8], atom: &[u8]) -> Result<Line, AllocError>
    ensures { IfOk result (λ text. text ≡ front.now ++ atom_text name.now atom.now) }
{
    let mut text = Line::new(alloc);
    text.text(front)?;
    text.text(atom)?;
    text.text(b" of ")?;
    text.text(name)?;
    Ok(text)
}

/// What is told of an atom that no letter has.
fn never_true_text(
    alloc: Global,
    name: &[u8],
    atom: &[u8],
    letters: u64,
) -> Result<Line, AllocError>
    ensures { IfOk result (λ text. text ≡ codes "atom-never-true: " ++ atom_text name.now atom.now ++ codes " is true in no letter" ++ in_brackets letters) }
{
    let mut text = atom_text(alloc, b"atom-never-true: ", name, atom)?;
    text.text(b" is true in no letter")?;
    put_brackets(&mut text, letters)?;
    Ok(text)
}

/// No line sets the atom, or else no letter has it.
fn add_atom_by(
    alloc: Global,
    found: &mut Vec<Finding>,
    name: &[u8],
    line: u32,
    letters: u64,
    true_in: u64,
    atom: &[u8],
    least: Option<u32>,
) -> Result<(), AllocError>
    ensures { OnOk result (found.new.items ≡ found.old.items ++ atom_findings_by name.now line letters true_in atom.now least) }
{
    match least {
        None => {
            let text = atom_text(alloc, b"atom-not-bound: no line sets ", name, atom)?;
            add(found, line, text)
        }
        Some(least) => {
            if letters == 0 || true_in != 0 {
                return Ok(());
            }
            let text = never_true_text(alloc, name, atom, letters)?;
            add(found, least, text)
        }
    }
}

/// Adds the lines that begin with the atom on.
fn add_begin_lines(
    found: &mut Vec<u32>,
    called: &Name,
    atom: &[u8],
    lines: &[Begun],
) -> Result<(), AllocError>
    ensures { OnOk result (found.new.items ≡ found.old.items ++ begin_lines called.now atom.now lines.now) }
{
    'lines: for line in lines {
        if line.monitor.bytes() == called.bytes() && line.atom.bytes() == atom {
            found.push(line.line)?;
        }
    }
    Ok(())
}

/// The lines that set the atom.
fn setting_lines(
    alloc: Global,
    called: &Name,
    own: &[OwnRule],
    lines: &BindingLines,
    atom: &[u8],
    place: usize,
) -> Result<Vec<u32>, AllocError>
    ensures { IfOk result (λ found. found.items ≡ setting_lines called.now own.now lines.now atom.now place) }
{
    let mut found = lines_where(alloc, Asked::Sets(place), own)?;
    add_begin_lines(&mut found, called, atom, &lines.begins)?;
    Ok(found)
}

/// An atom of a rule.
fn add_atom(
    alloc: Global,
    found: &mut Vec<Finding>,
    name: &[u8],
    line: u32,
    called: &Name,
    own: &[OwnRule],
    lines: &BindingLines,
    c: &MonitorCounts,
    atoms: &Names,
    place: usize,
) -> Result<(), AllocError>
    requires { place < length atoms.now }
    ensures { OnOk result (found.new.items ≡ found.old.items ++ atom_finding name.now line called.now own.now lines.now c.now atoms.now place) }
{
    let atom = atoms.get(place).bytes();
    let setting = setting_lines(alloc, called, own, lines, atom, place)?;
    let true_in = number_at(&c.atoms, place);
    add_atom_by(
        alloc,
        found,
        name,
        line,
        c.letters,
        true_in,
        atom,
        least_of(&setting),
    )
}

/// What is told of an edge that was not taken.
fn edge_never_text(
    alloc: Global,
    name: &[u8],
    automaton: &Automaton,
    edge: Edge,
) -> Result<Line, AllocError>
    ensures { IfOk result (λ text. text ≡ codes "edge-never-taken: " ++ edge_text automaton.now edge ++ codes " of " ++ name.now) }
{
    let mut text = Line::new(alloc);
    text.text(b"edge-never-taken: ")?;
    put_edge_names(&mut text, automaton, edge)?;
    text.text(b" of ")?;
    text.text(name)?;
    Ok(text)
}

/// An edge of an automaton.
fn add_edge(
    alloc: Global,
    found: &mut Vec<Finding>,
    name: &[u8],
    line: u32,
    own: &[OwnRule],
    c: &MonitorCounts,
    automaton: &Automaton,
    place: usize,
) -> Result<(), AllocError>
    requires { place < length automaton.now.edges }
    ensures { OnOk result (found.new.items ≡ found.old.items ++ edge_finding name.now line own.now c.now automaton.now place) }
{
    if number_at(&c.edges, place) != 0 {
        return Ok(());
    }
    let edge = automaton.edges[place];
    let lines = lines_where(alloc, Asked::Brings(edge.event as usize), own)?;
    let text = edge_never_text(alloc, name, automaton, edge)?;
    add(found, first_or(line, &lines), text)
}

/// The number of its places in the specification.
fn part_size(part: SpecPart, spec: &Spec) -> usize
    ensures { result ≡ part_size part spec.now }
{
    match spec {
        Spec::Da(automaton) => match part {
            SpecPart::Events => automaton.events.len(),
            SpecPart::Edges => automaton.edges.len(),
            SpecPart::Atoms => 0,
        },
        Spec::Ltl(rule) => match part {
            SpecPart::Atoms => rule.atoms.len(),
            SpecPart::Events | SpecPart::Edges => 0,
        },
    }
}

/// What is found at a place of a part.
fn add_place(
    alloc: Global,
    found: &mut Vec<Finding>,
    name: &[u8],
    line: u32,
    called: &Name,
    own: &[OwnRule],
    lines: &BindingLines,
    c: &MonitorCounts,
    spec: &Spec,
    part: SpecPart,
    place: usize,
) -> Result<(), AllocError>
    requires { place < part_size part spec.now }
    ensures { OnOk result (found.new.items ≡ found.old.items ++ place_finding name.now line called.now own.now lines.now c.now spec.now part place) }
{
    match spec {
        Spec::Da(automaton) => match part {
            SpecPart::Events => add_event(alloc, found, name, line, own, &automaton.events, place),
            SpecPart::Edges => add_edge(alloc, found, name, line, own, c, automaton, place),
            SpecPart::Atoms => Ok(()),
        },
        Spec::Ltl(rule) => match part {
            SpecPart::Atoms => add_atom(
                alloc,
                found,
                name,
                line,
                called,
                own,
                lines,
                c,
                &rule.atoms,
                place,
            ),
            SpecPart::Events | SpecPart::Edges => Ok(()),
        },
    }
}

/// What is found at all places of a part.
#[tactic(auto, using(rv_facts::proofs::GrowingLists::none_numbered, rv_facts::proofs::GrowingLists::more_numbered))]
pub(crate) fn add_part(
    alloc: Global,
    found: &mut Vec<Finding>,
    name: &[u8],
    line: u32,
    called: &Name,
    own: &[OwnRule],
    lines: &BindingLines,
    c: &MonitorCounts,
    spec: &Spec,
    part: SpecPart,
) -> Result<(), AllocError>
    ensures { OnOk result (found.new.items ≡ found.old.items ++ part_findings name.now line called.now own.now lines.now c.now spec.now part) }
{
    'places: for place in 0..part_size(part, spec) {
        add_place(
            alloc, found, name, line, called, own, lines, c, spec, part, place,
        )?;
    }
    Ok(())
}
