//! The lines of a trace are routed as they are taken from its pieces, and none is kept.
ghost use Rattle.std.specs.Prelude.{◌≡◌, ◌≤◌, ◌++◌, [], true, false, length, All, None, IfErr, IfOk, OnOk};
ghost use Rattle.rv_text.specs.Readings.{Gives, Refuses, and_then};
ghost use Rattle.rv_text.specs.TextLines.{lines_of};
ghost use Rattle.rv_trace.specs.Streams.{part_read};
ghost use Rattle.rv_trace.specs.Traces.{trace_of};
ghost use Rattle.rv_bind.specs.declared.limits.TheConstants.{MAX_RULES};
ghost use Rattle.rv_bind.specs.WellFormed.{FitsKind, kinds_of};
ghost use Rattle.rv_route.specs.Fitting.{WorksFit, FromRules};
ghost use Rattle.rv_route.specs.Routed.{routed_value, list_value};
ghost use Rattle.rv_route.specs.Routing.{route_of};
ghost use Rattle.rv_stream.specs.inner.Pieces.{passed_text, IsRouted, IsTold};
ghost use Rattle.rv_stream.specs.inner.Routings.{MayBeFed};
ghost use Rattle.rv_stream.specs.Listed.{IsListed};

use crate::observer::{LineObserver, NoObserver};
use rv_bind::Bindings;
use rv_route::{Collector, Routed, RoutedList};
use rv_text::Refused;
use rv_trace::Lines;
use std::alloc::{AllocError, Global};

/// A trace that is read and routed: the lines that are not yet taken, what was routed, and the first refusal of routing.
#[derive(Drop)]
pub(crate) struct Routing {
    pub(crate) lines: Lines,
    pub(crate) collector: Collector,
    pub(crate) late: Option<Refused>,
}

/// Routes all lines that can be taken, and tells of each. The first refusal of routing is kept, and the lines behind it
/// are read on.
fn route_taken<O: LineObserver>(
    alloc: Global,
    lines: &mut Lines,
    collector: &mut Collector,
    bindings: &Bindings,
    late: &mut Option<Refused>,
    context: &O::Context,
    observer: &mut O,
) -> Result<(), Refused>
    requires routed { IsRouted bindings.now (passed_text lines.old) collector.old late.old }
    requires told { IsTold (O.observed context.now) lines.old observer.old }
    ensures fed { lines.new.fed ≡ lines.old.fed }
    ensures ended { lines.new.ended ≡ lines.old.ended }
    ensures idle { OnOk result (lines.new.idle ≡ true) }
    ensures all { OnOk result (passed_text lines.new ≡ part_read lines.old.ended lines.old.fed) }
    ensures routed { OnOk result (IsRouted bindings.now (passed_text lines.new) collector.new late.new) }
    ensures told { OnOk result (IsTold (O.observed context.now) lines.new observer.new) }
    ensures listed { collector.new.listed ≡ collector.old.listed }
    ensures refused { IfErr result (λ fault. Refuses fault (trace_of (part_read lines.old.ended lines.old.fed))) }
{
    while let Some(taken) = lines.take_any()? {
        let text = lines.text();
        observer.observe(alloc, context, text, &taken)?;
        if let Some(line) = taken.found {
            if let Err(fault) = collector.line(bindings, text, &line) {
                *late = Some(fault);
            }
        }
    }
    Ok(())
}

/// Routes the lines that are left at the end of the text. A refusal of a line comes before one of routing.
fn route_rest<O: LineObserver>(
    alloc: Global,
    mut lines: Lines,
    collector: &mut Collector,
    bindings: &Bindings,
    mut late: Option<Refused>,
    context: &O::Context,
    observer: &mut O,
) -> Result<(), Refused>
    requires unended { lines.ended ≡ false }
    requires idle { lines.idle ≡ true }
    requires routed { IsRouted bindings.now (passed_text lines) collector.old late }
    requires told { IsTold (O.observed context.now) lines observer.old }
    ensures told { OnOk result (O.observed context.now (lines_of lines.fed) observer.new) }
    ensures routed { OnOk result (IsRouted bindings.now lines.fed collector.new None) }
    ensures listed { collector.new.listed ≡ collector.old.listed }
    ensures refused { IfErr result (λ fault. Refuses fault (and_then (trace_of lines.fed) (route_of bindings.now.monitors.items bindings.now.rules.items lines.fed))) }
{
    lines.finish();
    route_taken(
        alloc, &mut lines, collector, bindings, &mut late, context, observer,
    )?;
    match late {
        None => Ok(()),
        Some(fault) => Err(fault),
    }
}

/// No line was taken. Deliveries go to one list, or to the scripts of their CPUs.
fn new_collector(alloc: Global, bindings: &Bindings, listed: bool) -> Result<Collector, AllocError>
    requires rules { All (FitsKind (kinds_of bindings.now.monitors.items)) bindings.now.rules.items }
    requires few { length bindings.now.rules.items ≤ MAX_RULES }
    ensures routed { IfOk result (λ collector. IsRouted bindings.now [] collector None) }
    ensures listed { IfOk result (λ collector. collector.listed ≡ listed) }
{
    if listed {
        let collector = Collector::listing(alloc, bindings)?;
        return Ok(collector);
    }
    let collector = Collector::new(alloc, bindings)?;
    Ok(collector)
}

impl Routing {
    /// No byte was read. Deliveries go to one list, or to the scripts of their CPUs.
    pub(crate) fn new(
        alloc: Global,
        bindings: &Bindings,
        listed: bool,
    ) -> Result<Routing, AllocError>
        requires rules { All (FitsKind (kinds_of bindings.now.monitors.items)) bindings.now.rules.items }
        requires few { length bindings.now.rules.items ≤ MAX_RULES }
        ensures open { IfOk result (MayBeFed bindings.now) }
        ensures fed { IfOk result (λ routing. routing.lines.fed ≡ []) }
        ensures passed { IfOk result (λ routing. lines_of (passed_text routing.lines) ≡ []) }
        ensures listed { IfOk result (λ routing. routing.collector.listed ≡ listed) }
    {
        Ok(Routing {
            lines: Lines::new(alloc),
            collector: new_collector(alloc, bindings, listed)?,
            late: None,
        })
    }

    /// Routes the lines that end in the next piece of the text.
    pub(crate) fn take_piece<O: LineObserver>(
        &mut self,
        alloc: Global,
        bindings: &Bindings,
        piece: &[u8],
        context: &O::Context,
        observer: &mut O,
    ) -> Result<(), Refused>
        requires open { MayBeFed bindings.now self.old }
        requires told { IsTold (O.observed context.now) self.old.lines observer.old }
        ensures told { OnOk result (IsTold (O.observed context.now) self.new.lines observer.new) }
        ensures open { OnOk result (MayBeFed bindings.now self.new) }
        ensures fed { OnOk result (self.new.lines.fed ≡ self.old.lines.fed ++ piece.now) }
        ensures listed { self.new.collector.listed ≡ self.old.collector.listed }
        ensures refused { IfErr result (λ fault. Refuses fault (trace_of (part_read false (self.old.lines.fed ++ piece.now)))) }
    {
        self.lines.feed(piece)?;
        route_taken(
            alloc,
            &mut self.lines,
            &mut self.collector,
            bindings,
            &mut self.late,
            context,
            observer,
        )
    }

    /// What the whole text is routed to, by CPUs.
    pub(crate) fn end(self, alloc: Global, bindings: &Bindings) -> Result<Routed, Refused>
        requires open { MayBeFed bindings.now self }
        requires scripts { self.collector.listed ≡ false }
        ensures value { Gives routed_value result (and_then (trace_of self.lines.fed) (route_of bindings.now.monitors.items bindings.now.rules.items self.lines.fed)) }
        ensures fit { IfOk result (λ routed. WorksFit (kinds_of bindings.now.monitors.items) (length routed.tasks) routed.works.items) }
        ensures rules { IfOk result (λ routed. FromRules bindings.now.rules.items routed.works.items) }
    {
        let Routing {
            lines,
            mut collector,
            late,
        } = self;
        route_rest(
            alloc,
            lines,
            &mut collector,
            bindings,
            late,
            &(),
            &mut NoObserver,
        )?;
        Ok(collector.end())
    }

    /// The same as one list.
    pub(crate) fn end_list<O: LineObserver>(
        self,
        alloc: Global,
        bindings: &Bindings,
        context: &O::Context,
        observer: &mut O,
    ) -> Result<RoutedList, Refused>
        requires open { MayBeFed bindings.now self }
        requires list { self.collector.listed ≡ true }
        requires told { IsTold (O.observed context.now) self.lines observer.old }
        ensures told { OnOk result (O.observed context.now (lines_of self.lines.fed) observer.new) }
        ensures value { Gives list_value result (and_then (trace_of self.lines.fed) (route_of bindings.now.monitors.items bindings.now.rules.items self.lines.fed)) }
        ensures listed { IfOk result (IsListed bindings.now) }
    {
        let Routing {
            lines,
            mut collector,
            late,
        } = self;
        route_rest(
            alloc,
            lines,
            &mut collector,
            bindings,
            late,
            context,
            observer,
        )?;
        Ok(collector.end_list())
    }
}
