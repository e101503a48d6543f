//! The automata (Linux, Documentation/trace/rv, monitor_wip.rst and monitor_wwnr.rst).
ghost use Rattle.std.specs.Prelude.{◌≡◌, IfOk, [], ◌∷◌};
ghost use Rattle.rv_gen.specs.Generated.{edge, wip, wwnr};

use rv_model::{Automaton, Edge, Name, Names};
use std::alloc::{AllocError, Global};

fn two_names(alloc: Global, first: &[u8], second: &[u8]) -> Result<Names, AllocError>
    ensures { IfOk result (λ names. names ≡ first.now ∷ second.now ∷ []) }
{
    let mut names = Names::new(alloc);
    names.push(Name::new(alloc, first)?)?;
    names.push(Name::new(alloc, second)?)?;
    Ok(names)
}

fn three_names(
    alloc: Global,
    first: &[u8],
    second: &[u8],
    third: &[u8],
) -> Result<Names, AllocError>
    ensures { IfOk result (λ names. names ≡ first.now ∷ second.now ∷ third.now ∷ []) }
{
    let mut names = two_names(alloc, first, second)?;
    names.push(Name::new(alloc, third)?)?;
    Ok(names)
}

/// The edge that leads from a state to another by an event.
fn edge(from: u8, event: u8, to: u8) -> Edge
    ensures { result ≡ edge from event to }
{
    Edge { from, event, to }
}

fn three_edges(
    alloc: Global,
    first: Edge,
    second: Edge,
    third: Edge,
) -> Result<Vec<Edge>, AllocError>
    ensures { IfOk result (λ edges. edges.items ≡ first ∷ second ∷ third ∷ []) }
{
    let mut edges = Vec::new(alloc);
    edges.push(first)?;
    edges.push(second)?;
    edges.push(third)?;
    Ok(edges)
}

/// Preemption is off wherever a task is woken.
pub fn wip(alloc: Global) -> Result<Automaton, AllocError>
    ensures { IfOk result (λ automaton. automaton ≡ wip) }
{
    let states = two_names(alloc, b"preemptive", b"non_preemptive")?;
    let events = three_names(
        alloc,
        b"preempt_disable",
        b"preempt_enable",
        b"sched_waking",
    )?;
    let edges = three_edges(alloc, edge(0, 0, 1), edge(1, 1, 0), edge(1, 2, 1))?;
    Ok(Automaton {
        states,
        events,
        edges,
        marked: 1,
    })
}

/// A task is woken only while it does not run.
pub fn wwnr(alloc: Global) -> Result<Automaton, AllocError>
    ensures { IfOk result (λ automaton. automaton ≡ wwnr) }
{
    let states = two_names(alloc, b"not_running", b"running")?;
    let events = three_names(alloc, b"switch_in", b"switch_out", b"wakeup")?;
    let edges = three_edges(alloc, edge(0, 0, 1), edge(0, 2, 0), edge(1, 1, 0))?;
    Ok(Automaton {
        states,
        events,
        edges,
        marked: 1,
    })
}
