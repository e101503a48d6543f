//! From the trace's file to what each CPU has to do, or to one list of deliveries.
ghost use Rattle.std.specs.Prelude.{◌≡◌, ◌<◌, ◌≤◌, ◌+◌, ◌⊎◌, true, false, [], length, IfOk, IfErr, OnOk};
ghost use Rattle.rv_bind.specs.FilePieces.{FailsAs};
ghost use Rattle.rv_bind.specs.Outcomes.{ReadsOutcome, of_file};
ghost use Rattle.rv_bind.specs.Possible.{MayCome, MayFault, MayRead};
ghost use Rattle.rv_bind.specs.BoundViews.{bound_value};
ghost use Rattle.rv_bind.specs.WellFormed.{IsWellFormed, kinds_of};
ghost use Rattle.rv_route.specs.Routed.{routed_value, list_value};
ghost use Rattle.rv_route.specs.Routing.{route_of};
ghost use Rattle.rv_text.specs.Readings.{and_then};
ghost use Rattle.rv_text.specs.TextLines.{lines_of};
ghost use Rattle.rv_trace.specs.Traces.{trace_of};
ghost use Rattle.rv_route.specs.Fitting.{WorksFit, FromRules};
ghost use Rattle.rv_stream.specs.RoutedTraces.{routed_in, routed_text};
ghost use Rattle.rv_stream.specs.inner.Faults.{IsOutcome};
ghost use Rattle.rv_stream.specs.inner.Feeding.{IsFileFed, IsAll};
ghost use Rattle.rv_stream.specs.inner.Pieces.{IsTold};
ghost use Rattle.rv_stream.specs.inner.Routings.{MayBeFed};
ghost use Rattle.rv_stream.specs.Observing.{ObservesTrace};
ghost use Rattle.rv_stream.specs.Listed.{IsListed};

use crate::observer::{LineObserver, NoObserver};
use crate::routing::Routing;
use rv_bind::{BindFault, Bound, fetch, refused};
use rv_io::{READ_LIMIT, Store};
use rv_route::{Routed, RoutedList};
use std::alloc::Global;

/// How many bytes of a trace are read at a time.
const PIECE: usize = 65_536;

/// Routes the next piece of the trace, and answers how many bytes it has.
fn take_next<S: Store, O: LineObserver>(
    alloc: Global,
    store: &mut S,
    trace: &str,
    bound: &Bound,
    place: usize,
    buffer: &mut [u8],
    routing: &mut Routing,
    context: &O::Context,
    observer: &mut O,
) -> Result<usize, BindFault>
    requires room { place + length buffer.old ≤ READ_LIMIT }
    requires open { MayBeFed bound.now.bindings routing.old }
    requires told { IsTold (O.observed context.now) routing.old.lines observer.old }
    requires fed { IsFileFed (S.files store.old) trace.now place routing.old.lines.fed }
    ensures count { IfOk result (λ count. count ≤ length buffer.old) }
    ensures open { OnOk result (MayBeFed bound.now.bindings routing.new) }
    ensures told { OnOk result (IsTold (O.observed context.now) routing.new.lines observer.new) }
    ensures fed { IfOk result (λ count. IsFileFed (S.files store.old) trace.now (place + count) routing.new.lines.fed) }
    ensures listed { routing.new.collector.listed ≡ routing.old.collector.listed }
    ensures all { IfOk result (λ count. count ≡ 0 → 0 < length buffer.old → IsAll (S.files store.old) trace.now routing.new.lines.fed) }
    ensures fails { FailsAs (S.files store.old) (S.files store.new) (S.faults store.old) (S.faults store.new) result (λ files. routed_in files trace.now (bound_value bound.now)) }
    ensures some { IfErr result (λ fault. MayFault fault (MayRead trace.now (routed_text trace.now (bound_value bound.now)))) }
{
    let count = fetch(alloc, store, trace, place as u64, buffer)?;
    match routing.take_piece(alloc, &bound.bindings, &buffer[..count], context, observer) {
        Ok(()) => Ok(count),
        Err(fault) => Err(refused(alloc, trace, fault)),
    }
}

/// Routes the trace piece by piece, up to its end or to the limit of a read.
#[tactic(auto, using(rv_bind::proofs::OutcomeLemmas::behind_counted))]
fn take_pieces<S: Store, O: LineObserver>(
    alloc: Global,
    store: &mut S,
    trace: &str,
    bound: &Bound,
    buffer: &mut [u8],
    routing: &mut Routing,
    context: &O::Context,
    observer: &mut O,
) -> Result<(), BindFault>
    requires room { 0 < length buffer.old }
    requires open { MayBeFed bound.now.bindings routing.old }
    requires told { IsTold (O.observed context.now) routing.old.lines observer.old }
    requires fed { routing.old.lines.fed ≡ [] }
    ensures open { OnOk result (MayBeFed bound.now.bindings routing.new) }
    ensures told { OnOk result (IsTold (O.observed context.now) routing.new.lines observer.new) }
    ensures listed { routing.new.collector.listed ≡ routing.old.collector.listed }
    ensures all { OnOk result (IsAll (S.files store.old) trace.now routing.new.lines.fed) }
    ensures fails { FailsAs (S.files store.old) (S.files store.new) (S.faults store.old) (S.faults store.new) result (λ files. routed_in files trace.now (bound_value bound.now)) }
    ensures some { IfErr result (λ fault. MayFault fault (MayRead trace.now (routed_text trace.now (bound_value bound.now)))) }
{
    let mut place = 0;
    while place < READ_LIMIT {
        let room = buffer.len().min(READ_LIMIT - place);
        let count = take_next(
            alloc,
            store,
            trace,
            bound,
            place,
            &mut buffer[..room],
            routing,
            context,
            observer,
        )?;
        if count == 0 {
            return Ok(());
        }
        place += count;
    }
    Ok(())
}

/// Routes the trace piece by piece, with a buffer for the pieces.
fn take_trace<S: Store, O: LineObserver>(
    alloc: Global,
    store: &mut S,
    trace: &str,
    bound: &Bound,
    routing: &mut Routing,
    context: &O::Context,
    observer: &mut O,
) -> Result<(), BindFault>
    requires open { MayBeFed bound.now.bindings routing.old }
    requires told { IsTold (O.observed context.now) routing.old.lines observer.old }
    requires fed { routing.old.lines.fed ≡ [] }
    ensures open { OnOk result (MayBeFed bound.now.bindings routing.new) }
    ensures told { OnOk result (IsTold (O.observed context.now) routing.new.lines observer.new) }
    ensures listed { routing.new.collector.listed ≡ routing.old.collector.listed }
    ensures all { OnOk result (IsAll (S.files store.old) trace.now routing.new.lines.fed) }
    ensures fails { FailsAs (S.files store.old) (S.files store.new) (S.faults store.old) (S.faults store.new) result (λ files. routed_in files trace.now (bound_value bound.now)) }
    ensures some { IfErr result (λ fault. MayFault fault (MayRead trace.now (routed_text trace.now (bound_value bound.now)))) }
{
    let Ok(mut buffer) = vec![in alloc; 0u8; PIECE] else {
        return Err(BindFault::Memory);
    };
    take_pieces(
        alloc,
        store,
        trace,
        bound,
        buffer.as_mut_slice(),
        routing,
        context,
        observer,
    )
}

/// Routes the trace to one list, or to the scripts of CPUs.
#[tactic(auto, using(rv_bind::proofs::OutcomeLemmas::fault_counted))]
fn route_trace<S: Store, O: LineObserver>(
    alloc: Global,
    store: &mut S,
    trace: &str,
    bound: &Bound,
    listed: bool,
    context: &O::Context,
    observer: &mut O,
) -> Result<Routing, BindFault>
    requires formed { IsWellFormed (bound_value bound.now) }
    requires none { O.observed context.now [] observer.old }
    ensures open { IfOk result (MayBeFed bound.now.bindings) }
    ensures told { IfOk result (λ routing. IsTold (O.observed context.now) routing.lines observer.new) }
    ensures listed { IfOk result (λ routing. routing.collector.listed ≡ listed) }
    ensures all { IfOk result (λ routing. IsAll (S.files store.old) trace.now routing.lines.fed) }
    ensures fails { FailsAs (S.files store.old) (S.files store.new) (S.faults store.old) (S.faults store.new) result (λ files. routed_in files trace.now (bound_value bound.now)) }
    ensures some { IfErr result (λ fault. MayFault fault (MayRead trace.now (routed_text trace.now (bound_value bound.now)))) }
{
    let Ok(mut routing) = Routing::new(alloc, &bound.bindings, listed) else {
        return Err(BindFault::Memory);
    };
    take_trace(alloc, store, trace, bound, &mut routing, context, observer)?;
    Ok(routing)
}

/// Reads the trace in pieces and routes it.
#[tactic(auto, using(rv_bind::proofs::OutcomeLemmas::fault_counted))]
pub fn read_routed<S: Store>(
    alloc: Global,
    store: &mut S,
    trace: &str,
    bound: &Bound,
) -> Result<Routed, BindFault>
    requires { IsWellFormed (bound_value bound.now) }
    ensures fit { IfOk result (λ routed. WorksFit (kinds_of bound.now.bindings.monitors.items) (length routed.tasks) routed.works.items) }
    ensures rules { IfOk result (λ routed. FromRules bound.now.bindings.rules.items routed.works.items) }
    ensures some { MayCome routed_value result (MayRead trace.now (routed_text trace.now (bound_value bound.now))) }
    ensures reads { ReadsOutcome routed_value (S.files store.old) (S.files store.new) (S.faults store.old) (S.faults store.new) result (λ files. routed_in files trace.now (bound_value bound.now)) }
{
    let routing = route_trace(alloc, store, trace, bound, false, &(), &mut NoObserver)?;
    end_routing(alloc, trace, bound, routing)
}

/// The same as one list.
pub fn read_list<S: Store>(
    alloc: Global,
    store: &mut S,
    trace: &str,
    bound: &Bound,
) -> Result<RoutedList, BindFault>
    requires { IsWellFormed (bound_value bound.now) }
    ensures listed { IfOk result (IsListed bound.now.bindings) }
    ensures some { MayCome list_value result (MayRead trace.now (routed_text trace.now (bound_value bound.now))) }
    ensures reads { ReadsOutcome list_value (S.files store.old) (S.files store.new) (S.faults store.old) (S.faults store.new) result (λ files. routed_in files trace.now (bound_value bound.now)) }
{
    read_list_observed(alloc, store, trace, bound, &(), &mut NoObserver)
}

/// The same, where an observer is told of each line as it is read, of the skipped ones too. It is kept out of the code of its
/// callers, whose loops are the slower for it.
#[inline(never)]
#[tactic(auto, using(rv_bind::proofs::OutcomeLemmas::fault_counted))]
pub fn read_list_observed<S: Store, O: LineObserver>(
    alloc: Global,
    store: &mut S,
    trace: &str,
    bound: &Bound,
    context: &O::Context,
    observer: &mut O,
) -> Result<RoutedList, BindFault>
    requires formed { IsWellFormed (bound_value bound.now) }
    requires none { O.observed context.now [] observer.old }
    ensures listed { IfOk result (IsListed bound.now.bindings) }
    ensures some { MayCome list_value result (MayRead trace.now (routed_text trace.now (bound_value bound.now))) }
    ensures reads { ReadsOutcome list_value (S.files store.old) (S.files store.new) (S.faults store.old) (S.faults store.new) result (λ files. routed_in files trace.now (bound_value bound.now)) }
    ensures observed { IfOk result (λ routed. ObservesTrace (O.observed context.now) (S.files store.old) trace.now (bound_value bound.now) (list_value routed) observer.new) }
{
    let routing = route_trace(alloc, store, trace, bound, true, context, observer)?;
    end_listing(alloc, trace, bound, routing, context, observer)
}

/// What the whole trace is routed to.
#[tactic(auto, using(crate::proofs::NumberLemmas::routed_numbered, crate::proofs::NumberLemmas::fault_tells))]
fn end_routing(
    alloc: Global,
    name: &str,
    bound: &Bound,
    routing: Routing,
) -> Result<Routed, BindFault>
    requires open { MayBeFed bound.now.bindings routing }
    requires scripts { routing.collector.listed ≡ false }
    ensures fit { IfOk result (λ routed. WorksFit (kinds_of bound.now.bindings.monitors.items) (length routed.tasks) routed.works.items) }
    ensures rules { IfOk result (λ routed. FromRules bound.now.bindings.rules.items routed.works.items) }
    ensures value { IsOutcome routed_value result (of_file name.now (and_then (trace_of routing.lines.fed) (route_of bound.now.bindings.monitors.items bound.now.bindings.rules.items routing.lines.fed))) }
{
    match routing.end(alloc, &bound.bindings) {
        Ok(routed) => Ok(routed),
        Err(fault) => Err(refused(alloc, name, fault)),
    }
}

/// The same as one list.
#[tactic(auto, using(crate::proofs::NumberLemmas::routed_numbered, crate::proofs::NumberLemmas::fault_tells))]
fn end_listing<O: LineObserver>(
    alloc: Global,
    name: &str,
    bound: &Bound,
    routing: Routing,
    context: &O::Context,
    observer: &mut O,
) -> Result<RoutedList, BindFault>
    requires open { MayBeFed bound.now.bindings routing }
    requires list { routing.collector.listed ≡ true }
    requires told { IsTold (O.observed context.now) routing.lines observer.old }
    ensures told { OnOk result (O.observed context.now (lines_of routing.lines.fed) observer.new) }
    ensures listed { IfOk result (IsListed bound.now.bindings) }
    ensures value { IsOutcome list_value result (of_file name.now (and_then (trace_of routing.lines.fed) (route_of bound.now.bindings.monitors.items bound.now.bindings.rules.items routing.lines.fed))) }
{
    match routing.end_list(alloc, &bound.bindings, context, observer) {
        Ok(routed) => Ok(routed),
        Err(fault) => Err(refused(alloc, name, fault)),
    }
}
