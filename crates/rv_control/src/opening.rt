//! The control files of a run that begins.
ghost use Rattle.std.specs.Prelude.{◌≡◌, ◌≤◌, ◌<◌, ◌^◌, map, length, IfOk};
ghost use Rattle.rv_control.specs.Opening.{watched, enables, opening_switches, opening_tree};

use crate::control::Control;
use crate::watched::MonitorInfo;
use rv_bind::{Bindings, Monitor};
use rv_model::{Name, Names, Reactor, SpecKind};
use std::alloc::{AllocError, Global};

/// Monitoring and reacting.
const SWITCHED_ON: u64 = 12_884_901_888;

/// What the control files show of a monitor.
fn watched(alloc: Global, monitor: &Monitor) -> Result<MonitorInfo, AllocError>
    ensures { IfOk result (λ seen. seen ≡ watched monitor.now) }
{
    Ok(MonitorInfo {
        name: Name::new(alloc, monitor.name.bytes())?,
        container: monitor.container,
        kind: SpecKind::of(&monitor.spec),
        scope: monitor.scope,
        file: Name::new(alloc, monitor.file.bytes())?,
    })
}

fn monitors(alloc: Global, monitors: &[Monitor]) -> Result<Vec<MonitorInfo>, AllocError>
    ensures { IfOk result (λ seen. seen.items ≡ map watched monitors.now) }
{
    let mut seen = Vec::new(alloc);
    for monitor in monitors {
        let shown = watched(alloc, monitor)?;
        seen.push(shown)?;
    }
    Ok(seen)
}

fn reactors(alloc: Global, monitors: &[Monitor]) -> Result<Vec<Reactor>, AllocError>
    ensures { IfOk result (λ reactors. reactors.items ≡ map (λ m. m.reactor) monitors.now) }
{
    let mut reactors = Vec::new(alloc);
    for monitor in monitors {
        reactors.push(monitor.reactor)?;
    }
    Ok(reactors)
}

fn containers(alloc: Global, names: &Names) -> Result<Vec<Name>, AllocError>
    ensures { IfOk result (λ list. list.items ≡ names.now) }
{
    let mut list = Vec::new(alloc);
    for place in 0..names.len() {
        let name = Name::new(alloc, names.get(place).bytes())?;
        list.push(name)?;
    }
    Ok(list)
}

/// Whether there is a monitor at this place, and it is enabled.
fn enables(monitors: &[Monitor], place: usize) -> bool
    ensures { result ≡ enables monitors.now place }
{
    match monitors.get(place) {
        Some(monitor) => monitor.enabled,
        None => false,
    }
}

/// The switches that a run opens with: a bit for each monitor that is enabled, by its place; bit 32 for monitoring, 33 for reacting.
pub fn opening_switches(monitors: &[Monitor]) -> u64
    ensures value { result ≡ opening_switches monitors.now }
    ensures fits { result < 2 ^ 35 }
{
    let mut switches: u64 = 0;
    let mut bit: u64 = 1;
    for place in 0..32usize {
        if enables(monitors, place) {
            switches += bit;
        }
        bit *= 2;
    }
    switches + SWITCHED_ON
}

impl Control {
    /// The opening switches and reactors of the bindings.
    pub fn new(alloc: Global, bindings: &Bindings) -> Result<Control, AllocError>
        requires monitors { length bindings.now.monitors.items ≤ 32 }
        requires containers { length bindings.now.containers ≤ 32 }
        ensures { IfOk result (λ control. control ≡ opening_tree bindings.now) }
    {
        let all = bindings.monitors.as_slice();
        Ok(Control {
            switches: opening_switches(all),
            reactors: reactors(alloc, all)?,
            containers: containers(alloc, &bindings.containers)?,
            monitors: monitors(alloc, all)?,
            items: Vec::from_slice(alloc, bindings.items.as_slice())?,
        })
    }
}
