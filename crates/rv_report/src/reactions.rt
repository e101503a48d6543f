//! The lines of reactions.
ghost use Rattle.std.specs.Prelude.{◌≡◌, ◌++◌, [], OnOk, IfOk, slice_get, slice_index_or};
ghost use Rattle.rv_model.specs.Reports.{event_text, state_text, fault_text, record_text};
ghost use Rattle.rv_react.specs.Reactions.{shown_fault};
ghost use Rattle.rv_report.specs.Printed.{failed_set, has_reaction, is_loud, is_printed};
ghost use Rattle.rv_report.specs.inner.Printed.{reaction_to};
ghost use Rattle.rv_report.specs.Reported.{reported, reported_of};

use crate::instances::{display_name, place};
use rv_bind::{Bindings, Monitor};
use rv_model::{Answer, Delivered, Name, Names, Reactor, Record, Spec, What, has_bit};
use rv_react::{Fault, reaction};
use rv_slots::Tasks;
use rv_text::Line;
use std::alloc::{AllocError, Global};

/// The name of the state whose row is in the set.
fn state(alloc: Global, states: &Names, set: u32) -> Result<Name, AllocError>
    ensures { IfOk result (λ name. name ≡ state_text 1 states.now set) }
{
    for place in 0..states.len() {
        if has_bit(set as u64, place + 1) {
            return Name::new(alloc, states.get(place).bytes());
        }
    }
    Name::new(alloc, b"")
}

/// The name of the event that a hit brings.
fn event(alloc: Global, events: &Names, what: What) -> Result<Name, AllocError>
    ensures { IfOk result (λ name. name ≡ event_text events.now what) }
{
    match what {
        What::Da { event } if (event as usize) < events.len() => {
            Name::new(alloc, events.get(event as usize).bytes())
        }
        _ => Name::new(alloc, b""),
    }
}

/// What is told of a failure: of an automaton the event and the state, of a rule neither.
fn fault(alloc: Global, spec: &Spec, what: What, set: u32) -> Result<Fault, AllocError>
    ensures { IfOk result (λ fault. shown_fault fault ≡ fault_text spec.now what set) }
{
    match spec {
        Spec::Da(automaton) => {
            let event = event(alloc, &automaton.events, what)?;
            let state = state(alloc, &automaton.states, set)?;
            Ok(Fault::Da { event, state })
        }
        Spec::Ltl(_) => Ok(Fault::Ltl),
    }
}

/// Appends what the monitor's reactor prints.
fn react(
    alloc: Global,
    out: &mut Line,
    containers: &Names,
    monitor: &Monitor,
    tasks: &Tasks,
    made: &Record,
    set: u32,
) -> Result<(), AllocError>
    ensures { OnOk result (out.new ≡ out.old ++ reaction_to (reported containers.now monitor.now) tasks.now made.now set) }
{
    let mut instance = Line::new(alloc);
    display_name(&mut instance, containers, monitor.container, &monitor.name)?;
    place(&mut instance, tasks, monitor.scope, made.instance)?;
    let fault = fault(alloc, &monitor.spec, made.hit.what, set)?;
    reaction(out, monitor.reactor, instance.bytes(), &fault, made.line)
}

/// The set of a record that has a reaction where its monitor's reactor prints.
fn failed_set(made: &Record) -> Option<u32>
    ensures { result ≡ failed_set made.now }
{
    match made.outcome {
        Delivered::Done(Answer::Failed(set)) if made.reacting => Some(set),
        _ => None,
    }
}

/// Whether the record has a reaction where its monitor's reactor prints.
pub(crate) fn has_reaction(made: &Record) -> bool
    ensures { result ≡ has_reaction made.now }
{
    failed_set(made).is_some()
}

/// Whether the reactor prints.
fn is_loud(reactor: Reactor) -> bool
    ensures { result ≡ is_loud reactor }
{
    reactor.front().is_some()
}

/// Whether the record has a reaction that is printed.
pub(crate) fn is_printed(bindings: &Bindings, made: &Record) -> bool
    ensures { result ≡ is_printed (reported_of bindings.now) made.now }
{
    match (
        failed_set(made),
        bindings.monitors.get(made.monitor as usize),
    ) {
        (Some(_), Some(monitor)) => is_loud(monitor.reactor),
        _ => false,
    }
}

/// Appends the reaction to a record, where there is one.
pub(crate) fn react_to(
    alloc: Global,
    out: &mut Line,
    bindings: &Bindings,
    tasks: &Tasks,
    made: &Record,
) -> Result<(), AllocError>
    ensures { OnOk result (out.new ≡ out.old ++ record_text (slice_get (reported_of bindings.now) made.now.monitor) tasks.now made.now) }
{
    match (
        failed_set(made),
        bindings.monitors.get(made.monitor as usize),
    ) {
        (Some(set), Some(monitor)) => react(
            alloc,
            out,
            &bindings.containers,
            monitor,
            tasks,
            made,
            set,
        ),
        _ => Ok(()),
    }
}
