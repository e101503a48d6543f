//! The automaton of names and moves that fit together.
ghost use Rattle.std.specs.Prelude.{◌≡◌, ◌<◌, ◌≤◌, ◌+◌, ◌*◌, IfOk, map, All, length, if◌then◌else◌};
ghost use Rattle.rv_model.specs.WellFormed.{IsAutomaton};
ghost use Rattle.rv_dot.specs.inner.Held.{sayings_claims, bytes_of};
ghost use Rattle.rv_dot.specs.Gathered.{is_marked};
ghost use Rattle.rv_dot.specs.Moves.{edge_of};
ghost use Rattle.rv_dot.specs.Dot.{bits_of, marked_or_initial};
ghost use Rattle.rv_dot.specs.inner.Numberings.{states_by, machine_by};

use crate::gather::is_marked;
use crate::moves::Move;
use crate::numbering::Numbering;
use crate::saying::Saying;
use rv_model::{Automaton, Edge, Name, Names};
use std::alloc::{AllocError, Global};

fn names(alloc: Global, list: &[&[u8]]) -> Result<Names, AllocError>
    ensures { IfOk result (λ names. names ≡ map bytes_of list.now) }
{
    let mut names = Names::new(alloc);
    'names: for name in list {
        names.push(Name::new(alloc, *name)?)?;
    }
    Ok(names)
}

fn edges(alloc: Global, moves: &[Move]) -> Result<Vec<Edge>, AllocError>
    requires { All (λ m. (m.from < 256) × (m.event < 256) × (m.to < 256)) moves.now }
    ensures { IfOk result (λ v. v.items ≡ map edge_of moves.now) }
{
    let mut edges = Vec::new(alloc);
    'moves: for one in moves {
        edges.push(Edge {
            from: one.from as u8,
            event: one.event as u8,
            to: one.to as u8,
        })?;
    }
    Ok(edges)
}

/// The number whose lowest bit is this one, and whose other bits are those given.
fn more(bits: u32, has: bool) -> u32
    requires { bits < 1073741824 }
    ensures { result ≡ (if has then 1 else 0) + 2 * bits }
{
    if has { 1 + 2 * bits } else { 2 * bits }
}

/// A bit for each marked state, of which the first is the lowest; without any, the first state is the marked one.
fn marked(said: &[Saying<'_>], states: &[&[u8]]) -> u32
    requires { length states.now ≤ 31 }
    ensures { result ≡ marked_or_initial (bits_of (map (is_marked (sayings_claims said.now)) (map bytes_of states.now))) }
{
    let mut count = states.len();
    let mut bits = 0;
    'states: while 0 < count {
        count -= 1;
        bits = more(bits, is_marked(said, states[count]));
    }
    if bits == 0 { 1 } else { bits }
}

/// The first state and then the others.
fn states<'s>(alloc: Global, numbering: Numbering<'_, 's>) -> Result<Vec<&'s [u8]>, AllocError>
    ensures { IfOk result (λ v. map bytes_of v.items ≡ states_by numbering.entry) }
{
    let mut states = Vec::new(alloc);
    states.push(numbering.first)?;
    states.extend_from_slice(numbering.others)?;
    Ok(states)
}

/// The automaton with these states, events and moves.
pub fn built(
    alloc: Global,
    said: &[Saying<'_>],
    numbering: Numbering<'_, '_>,
    moves: &[Move],
) -> Result<Automaton, AllocError>
    requires { IsAutomaton (machine_by (sayings_claims said.now) numbering moves.now) }
    ensures { IfOk result (λ a. a ≡ machine_by (sayings_claims said.now) numbering.entry moves.now) }
{
    let states = states(alloc, numbering)?;
    let marked = marked(said, &states);
    Ok(Automaton {
        states: names(alloc, &states)?,
        events: names(alloc, numbering.events)?,
        edges: edges(alloc, moves)?,
        marked,
    })
}
