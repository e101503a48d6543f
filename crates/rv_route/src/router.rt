//! Takes the lines of a trace one after the other.
ghost use Rattle.std.specs.Prelude.{◌≡◌, ◌≤◌, List, length, None, All, IfOk};
ghost use Rattle.rv_bind.specs.declared.limits.TheConstants.{MAX_RULES};
ghost use Rattle.rv_bind.specs.WellFormed.{FitsKind, kinds_of, MonitorKind};
ghost use Rattle.rv_route.specs.Fitting.{FitsLines, WorksFit};
ghost use Rattle.rv_route.specs.Lines.{IsRoutable};
ghost use Rattle.rv_route.specs.Routed.{routed_value};
ghost use Rattle.rv_route.specs.Routers.{IsFor, RoutesLine};
ghost use Rattle.rv_route.specs.LineByLine.{no_routes, works_of};

use crate::collector::Collector;
use crate::routed::Routed;
use rv_bind::Bindings;
use rv_text::Refused;
use rv_trace::TraceLine;
use std::alloc::{AllocError, Global};
use std::marker::Model;

/// What has been routed, and what is needed to route on. After a refusal every line is refused so.
#[derive(Drop)]
pub struct Router {
    collector: Collector,
}

impl Model for Router {
    ghost use Rattle.std.specs.Prelude.{◌≡◌, false};
    ghost use Rattle.std.specs.Coded.{codes};
    ghost use Rattle.rv_route.specs.Routers.{RouterValue};

    ghost Value = { RouterValue };

    ghost coded = { Prim.hlevel codes };

    ghost view = { λ r. r.collector };

    ghost invariant = { λ r. r.collector.listed ≡ false };
}

impl Router {
    /// No line was taken. The rules are to be those of the bindings that every call is given.
    pub fn new(alloc: Global, bindings: &Bindings) -> Result<Router, AllocError>
        requires rules { All (FitsKind (kinds_of bindings.now.monitors.items)) bindings.now.rules.items }
        requires few { length bindings.now.rules.items ≤ MAX_RULES }
        ensures made { IfOk result (λ router. IsFor bindings.now router) }
        ensures routes { IfOk result (λ router. router.routes ≡ no_routes) }
        ensures next { IfOk result (λ router. router.next ≡ 0) }
        ensures accepted { IfOk result (λ router. router.refused ≡ None) }
    {
        Ok(Router {
            collector: Collector::new(alloc, bindings)?,
        })
    }

    /// Does what the rules ask for on the line, whose pieces are places in the text.
    pub fn line(
        &mut self,
        bindings: &Bindings,
        text: &[u8],
        line: &TraceLine,
    ) -> Result<(), Refused>
        requires made { IsFor bindings.now self.old }
        requires line { IsRoutable text.now line.now }
        requires ascends { self.old.next ≤ line.now.number }
        ensures takes { RoutesLine bindings.now text.now line.now self.old result self.new }
        ensures made { IsFor bindings.now self.new }
    {
        self.collector.line(bindings, text, line)
    }

    /// What was routed. It takes no memory.
    pub fn end(self) -> Routed
        requires { self.refused ≡ None }
        ensures value { routed_value result ≡ record { tasks = self.routes.tasks; works = works_of self.routes.lanes } }
        ensures fit { (kinds : List MonitorKind) → FitsLines kinds self.next self.routes → WorksFit kinds (length result.tasks) result.works.items }
    {
        self.collector.end()
    }
}
