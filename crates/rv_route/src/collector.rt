//! Collects what the lines of a trace are routed to: the works of CPUs, or one list.
ghost use Rattle.std.specs.Prelude.{◌≡◌, ◌≤◌, true, false, List, length, None, All, IfOk};
ghost use Rattle.rv_bind.specs.declared.limits.TheConstants.{MAX_RULES};
ghost use Rattle.rv_bind.specs.WellFormed.{FitsKind, kinds_of, MonitorKind};
ghost use Rattle.rv_route.specs.Fitting.{FitsLines, WorksFit};
ghost use Rattle.rv_route.specs.Lines.{IsRoutable};
ghost use Rattle.rv_route.specs.Routed.{routed_value};
ghost use Rattle.rv_route.specs.Routers.{IsFor, RoutesLine};
ghost use Rattle.rv_route.specs.LineByLine.{no_routes, works_of};
ghost use Rattle.rv_route.specs.Routed.{list_value};
ghost use Rattle.rv_route.specs.Listing.{works_listed};

use crate::deliveries::Deliveries;
use crate::finds::Finds;
use crate::firing::take;
use crate::index::{Index, index_of};
use crate::listing::{DeliveryList, RoutedList};
use crate::routed::{Routed, works_in};
use rv_bind::Bindings;
use rv_model::CpuWork;
use rv_text::Refused;
use rv_trace::TraceLine;
use std::alloc::{AllocError, Global};
use std::marker::Model;

/// What has been routed, and what is needed to route on. After a refusal every line is refused so.
#[derive(Drop)]
pub struct Collector {
    index: Index,
    /// What a line's fields have.
    finds: Finds,
    deliveries: Deliveries,
    /// Room for the works, so that the end takes no memory.
    works: Vec<CpuWork>,
    next: u64,
    refused: Option<Refused>,
}

impl Model for Collector {
    ghost use Rattle.std.specs.Prelude.{◌≡◌, ◌≤◌, [], None, All};
    ghost use Rattle.std.specs.Vec.{vec_capacity};
    ghost use Rattle.std.specs.Coded.{codes};
    ghost use Rattle.rv_route.specs.Lanes.{IsLane};
    ghost use Rattle.rv_route.specs.Routers.{RouterValue};

    ghost Value = { RouterValue };

    ghost coded = { Prim.hlevel codes };

    ghost view = { λ r. record { index = r.index; routes = r.deliveries.routes; targets = r.deliveries.targets; listed = r.deliveries.listed; list = r.deliveries.list; next = r.next; refused = r.refused } };

    ghost invariant = { λ r. (r.works.items ≡ []) × (64 ≤ vec_capacity r.works) × (r.refused ≡ None → All IsLane r.deliveries.routes.lanes) };
}

impl Collector {
    /// No line was taken. Deliveries go to one list, or to the scripts of their CPUs.
    fn begin(alloc: Global, bindings: &Bindings, listed: bool) -> Result<Collector, AllocError>
        requires rules { All (FitsKind (kinds_of bindings.now.monitors.items)) bindings.now.rules.items }
        requires few { length bindings.now.rules.items ≤ MAX_RULES }
        ensures made { IfOk result (λ router. IsFor bindings.now router) }
        ensures routes { IfOk result (λ router. router.routes ≡ no_routes) }
        ensures next { IfOk result (λ router. router.next ≡ 0) }
        ensures accepted { IfOk result (λ router. router.refused ≡ None) }
        ensures listed { IfOk result (λ router. router.listed ≡ listed) }
    {
        let index = index_of(alloc, bindings.rules.as_slice())?;
        let deliveries = Deliveries::new(alloc, bindings.rules.as_slice(), listed)?;
        let works = Vec::with_capacity(alloc, 64)?;
        Ok(Collector {
            index,
            finds: Finds::new(alloc),
            deliveries,
            works,
            next: 0,
            refused: None,
        })
    }

    /// No line was taken. The rules are to be those of the bindings that every call is given.
    pub fn new(alloc: Global, bindings: &Bindings) -> Result<Collector, AllocError>
        requires rules { All (FitsKind (kinds_of bindings.now.monitors.items)) bindings.now.rules.items }
        requires few { length bindings.now.rules.items ≤ MAX_RULES }
        ensures made { IfOk result (λ router. IsFor bindings.now router) }
        ensures routes { IfOk result (λ router. router.routes ≡ no_routes) }
        ensures next { IfOk result (λ router. router.next ≡ 0) }
        ensures accepted { IfOk result (λ router. router.refused ≡ None) }
        ensures scripts { IfOk result (λ router. router.listed ≡ false) }
    {
        Collector::begin(alloc, bindings, false)
    }

    /// The same, for one list of all deliveries, which `end_list` gives.
    pub fn listing(alloc: Global, bindings: &Bindings) -> Result<Collector, AllocError>
        requires rules { All (FitsKind (kinds_of bindings.now.monitors.items)) bindings.now.rules.items }
        requires few { length bindings.now.rules.items ≤ MAX_RULES }
        ensures made { IfOk result (λ router. IsFor bindings.now router) }
        ensures routes { IfOk result (λ router. router.routes ≡ no_routes) }
        ensures next { IfOk result (λ router. router.next ≡ 0) }
        ensures accepted { IfOk result (λ router. router.refused ≡ None) }
        ensures list { IfOk result (λ router. router.listed ≡ true) }
    {
        Collector::begin(alloc, bindings, true)
    }

    /// Does what the rules ask for on the line, whose pieces are places in the text.
    pub fn line(
        &mut self,
        bindings: &Bindings,
        text: &[u8],
        line: &TraceLine,
    ) -> Result<(), Refused>
        requires made { IsFor bindings.now self.old }
        requires line { IsRoutable text.now line.now }
        requires ascends { self.old.next ≤ line.now.number }
        ensures takes { RoutesLine bindings.now text.now line.now self.old result self.new }
        ensures made { IsFor bindings.now self.new }
    {
        self.next = line.number as u64 + 1;
        if let Some(refused) = self.refused {
            return Err(refused);
        }
        match take(
            &mut self.deliveries,
            bindings,
            &self.index,
            text,
            line,
            &mut self.finds,
        ) {
            Ok(()) => Ok(()),
            Err(refused) => {
                self.refused = Some(refused);
                Err(refused)
            }
        }
    }

    /// What was routed. It takes no memory.
    pub fn end(self) -> Routed
        requires accepted { self.refused ≡ None }
        requires scripts { self.listed ≡ false }
        ensures value { routed_value result ≡ record { tasks = self.routes.tasks; works = works_of self.routes.lanes } }
        ensures fit { (kinds : List MonitorKind) → FitsLines kinds self.next self.routes → WorksFit kinds (length result.tasks) result.works.items }
    {
        let Collector {
            deliveries,
            works,
            ..
        } = self;
        let Deliveries { tasks, lanes, .. } = deliveries;
        Routed {
            tasks,
            works: works_in(works, lanes),
        }
    }

    /// What was listed. It takes no memory.
    pub fn end_list(self) -> RoutedList
        requires accepted { self.refused ≡ None }
        requires list { self.listed ≡ true }
        ensures value { list_value result ≡ record { tasks = self.routes.tasks; works = works_of self.routes.lanes } }
        ensures list { result.list ≡ self.list }
        ensures fit { (kinds : List MonitorKind) → FitsLines kinds self.next self.routes → WorksFit kinds (length result.tasks) (works_listed result.list) }
    {
        let Collector { deliveries, .. } = self;
        let Deliveries {
            tasks,
            targets,
            items,
            ..
        } = deliveries;
        RoutedList {
            tasks,
            list: DeliveryList { targets, items },
        }
    }
}
