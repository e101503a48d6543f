//! What all statements say together: the declared states, the targets of markers, and the arcs.
ghost use Rattle.std.specs.Prelude.{◌≡◌, map, IfOk};
ghost use Rattle.std.specs.List.{filter_map, list_all};
ghost use Rattle.std.specs.Option.{option_map};
ghost use Rattle.rv_dot.specs.inner.Held.{claim_of, sayings_claims, arc, bytes_of};
ghost use Rattle.rv_dot.specs.inner.Gathering.{gathered_by};
ghost use Rattle.rv_dot.specs.Names.{is_event_name};
ghost use Rattle.rv_dot.specs.Gathered.{state_in, target_in, states_in, targets_in, arcs_with, arcs_of, arcs_in, fits, events_fit, marks_state, is_marked};

use crate::label::label_events;
use crate::names::{is_event_name, is_marker, is_marking_shape, is_state_name};
use crate::saying::Saying;
use std::alloc::{AllocError, Global};

/// From one state to another by an event, each by its name.
#[derive(Clone, Copy)]
pub struct Arc<'s> {
    pub from: &'s [u8],
    pub event: &'s [u8],
    pub to: &'s [u8],
}

/// The declared name, unless it is a marker.
fn state_in<'s, 'a>(saying: &'s Saying<'a>) -> Option<&'s [u8]>
    ensures { option_map bytes_of result ≡ state_in (claim_of saying.now) }
{
    match saying {
        Saying::Declares { name, .. } => {
            if is_marker(name) {
                None
            } else {
                Some(name.as_slice())
            }
        }
        Saying::Leads { .. } => None,
    }
}

/// The target, where the edge leaves a marker.
fn target_in<'s, 'a>(saying: &'s Saying<'a>) -> Option<&'s [u8]>
    ensures { option_map bytes_of result ≡ target_in (claim_of saying.now) }
{
    match saying {
        Saying::Declares { .. } => None,
        Saying::Leads { from, to, .. } => {
            if is_marker(from) {
                Some(to.as_slice())
            } else {
                None
            }
        }
    }
}

/// Which names are gathered.
#[derive(Clone, Copy)]
pub enum Gathers {
    /// Those of the declared states.
    States,
    /// The targets of the edges that leave markers.
    Targets,
}

/// The name of this kind that the saying has.
fn gathered_by<'s, 'a>(saying: &'s Saying<'a>, kind: Gathers) -> Option<&'s [u8]>
    ensures { option_map bytes_of result ≡ gathered_by kind (claim_of saying.now) }
{
    match kind {
        Gathers::States => state_in(saying),
        Gathers::Targets => target_in(saying),
    }
}

/// The names of this kind, in the order of the text.
fn names_in<'s, 'a>(
    alloc: Global,
    said: &'s [Saying<'a>],
    kind: Gathers,
) -> Result<Vec<&'s [u8]>, AllocError>
    ensures { IfOk result (λ v. map bytes_of v.items ≡ filter_map (gathered_by kind) (sayings_claims said.now)) }
{
    let mut found = Vec::new(alloc);
    'sayings: for saying in said {
        if let Some(name) = gathered_by(saying, kind) {
            found.push(name)?;
        }
    }
    Ok(found)
}

/// The names of the declared states.
pub fn states_in<'s, 'a>(alloc: Global, said: &'s [Saying<'a>]) -> Result<Vec<&'s [u8]>, AllocError>
    ensures { IfOk result (λ v. map bytes_of v.items ≡ states_in (sayings_claims said.now)) }
{
    names_in(alloc, said, Gathers::States)
}

/// The targets of the edges that leave markers.
pub fn targets_in<'s, 'a>(
    alloc: Global,
    said: &'s [Saying<'a>],
) -> Result<Vec<&'s [u8]>, AllocError>
    ensures { IfOk result (λ v. map bytes_of v.items ≡ targets_in (sayings_claims said.now)) }
{
    names_in(alloc, said, Gathers::Targets)
}

/// One arc for each of the events.
fn arcs_with<'s>(
    alloc: Global,
    from: &'s [u8],
    to: &'s [u8],
    events: &[&'s [u8]],
) -> Result<Vec<Arc<'s>>, AllocError>
    ensures { IfOk result (λ v. map arc v.items ≡ arcs_with from.now to.now (map bytes_of events.now)) }
{
    let mut found = Vec::new(alloc);
    'events: for event in events {
        found.push(Arc {
            from,
            event: *event,
            to,
        })?;
    }
    Ok(found)
}

/// One arc for each event of an edge that leaves no marker.
fn arcs_of<'s, 'a: 's>(alloc: Global, saying: &'s Saying<'a>) -> Result<Vec<Arc<'s>>, AllocError>
    ensures { IfOk result (λ v. map arc v.items ≡ arcs_of (claim_of saying.now)) }
{
    let Saying::Leads {
        from,
        to,
        label: Some(label),
    } = saying
    else {
        return Ok(Vec::new(alloc));
    };
    if is_marker(from) {
        return Ok(Vec::new(alloc));
    }
    let events = label_events(alloc, *label)?;
    arcs_with(alloc, from.as_slice(), to.as_slice(), &events)
}

/// The arcs of all edges, in the order of the text.
pub fn arcs_in<'s, 'a: 's>(
    alloc: Global,
    said: &'s [Saying<'a>],
) -> Result<Vec<Arc<'s>>, AllocError>
    ensures { IfOk result (λ v. map arc v.items ≡ arcs_in (sayings_claims said.now)) }
{
    let mut found = Vec::new(alloc);
    'sayings: for saying in said {
        let arcs = arcs_of(alloc, saying)?;
        found.extend_from_slice(&arcs)?;
    }
    Ok(found)
}

/// Whether a declared name is a marker's or a state's; an edge from a marker has no label or an empty one, and any other edge has a label.
pub fn fits(saying: &Saying<'_>) -> bool
    ensures { result ≡ fits (claim_of saying.now) }
{
    match saying {
        Saying::Declares { name, .. } => is_marker(name) || is_state_name(name),
        Saying::Leads { from, label, .. } => match label {
            None => is_marker(from),
            Some(label) => !is_marker(from) || label.is_empty(),
        },
    }
}

/// Whether all names and labels of the statements fit.
pub fn all_fit(said: &[Saying<'_>]) -> bool
    ensures { result ≡ list_all fits (sayings_claims said.now) }
{
    let mut rest = said;
    while let [first, after @ ..] = rest {
        if !fits(first) {
            return false;
        }
        rest = after;
    }
    true
}

/// Whether every event has the name of one.
pub fn events_fit(arcs: &[Arc<'_>]) -> bool
    ensures { result ≡ events_fit (map arc arcs.now) }
{
    let mut rest = arcs;
    while let [first, after @ ..] = rest {
        if !is_event_name(first.event) {
            return false;
        }
        rest = after;
    }
    true
}

/// Whether the statement is a declaration of this state that marks it.
fn marks_state(saying: &Saying<'_>, state: &[u8]) -> bool
    ensures { result ≡ marks_state state.now (claim_of saying.now) }
{
    match saying {
        Saying::Declares { name, shape } => name.as_slice() == state && is_marking_shape(*shape),
        Saying::Leads { .. } => false,
    }
}

/// Whether some declaration marks this state.
pub fn is_marked(said: &[Saying<'_>], state: &[u8]) -> bool
    ensures { result ≡ is_marked (sayings_claims said.now) state.now }
{
    let mut rest = said;
    while let [first, after @ ..] = rest {
        if marks_state(first, state) {
            return true;
        }
        rest = after;
    }
    false
}
