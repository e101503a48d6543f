//! Routes a whole trace.
ghost use Rattle.std.specs.Prelude.{◌≡◌, ◌≤◌, length, All, IfOk};
ghost use Rattle.rv_text.specs.Readings.{Gives};
ghost use Rattle.rv_route.specs.Lines.{IsRoutable};
ghost use Rattle.rv_route.specs.Routing.{route_of};
ghost use Rattle.rv_route.specs.Routed.{routed_value};
ghost use Rattle.rv_route.specs.Fitting.{WorksFit, NumbersAscend};
ghost use Rattle.rv_bind.specs.declared.limits.TheConstants.{MAX_RULES};
ghost use Rattle.rv_bind.specs.WellFormed.{FitsKind, kinds_of};

use crate::routed::Routed;
use crate::router::Router;
use rv_bind::Bindings;
use rv_text::Refused;
use rv_trace::TraceLine;
use std::alloc::Global;

/// For each line the rules that fire, in their order.
pub fn route(
    alloc: Global,
    bindings: &Bindings,
    text: &[u8],
    lines: &[TraceLine],
) -> Result<Routed, Refused>
    requires lines { All (IsRoutable text.now) lines.now }
    requires ascend { NumbersAscend lines.now }
    requires rules { All (FitsKind (kinds_of bindings.now.monitors.items)) bindings.now.rules.items }
    requires few { length bindings.now.rules.items ≤ MAX_RULES }
    ensures value { Gives routed_value result (route_of bindings.now.monitors.items bindings.now.rules.items text.now lines.now) }
    ensures fit { IfOk result (λ routed. WorksFit (kinds_of bindings.now.monitors.items) (length routed.tasks) routed.works.items) }
{
    let mut router = Router::new(alloc, bindings)?;
    for line in lines {
        router.line(bindings, text, line)?;
    }
    Ok(router.end())
}
