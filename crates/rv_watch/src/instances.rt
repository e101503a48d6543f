//! Which slot two words of the command line name.
ghost use Rattle.std.specs.Prelude.{◌≡◌, ◌<◌, ◌≤◌, [], length, option_map, position, sum, slice_index, slice_index_or, IfSome};
ghost use Rattle.std.specs.Option.{option_and_then};
ghost use Rattle.rv_slots.specs.Shapes.{count_of};
ghost use Rattle.rv_watch.specs.Instances.{is_named, task_by, instance_by, shape_of, slot_in, slot_named};

use rv_bind::{Bindings, Monitor};
use rv_control::is_joined;
use rv_model::{Names, Scope};
use rv_slots::{CPUS, Shape, Tasks};
use rv_text::decimal;

/// The name of the container at this place, where there is one.
fn container_name(containers: &Names, place: u8) -> &[u8]
    ensures { result.now ≡ slice_index_or containers.now place [] }
{
    if (place as usize) < containers.len() {
        containers.get(place as usize).bytes()
    } else {
        b""
    }
}

/// Whether the monitor's display name is this one.
fn is_named(containers: &Names, monitor: &Monitor, name: &[u8]) -> bool
    ensures { result ≡ is_named containers.now name.now monitor.now }
{
    match monitor.container {
        Some(place) => is_joined(
            name,
            container_name(containers, place),
            monitor.name.bytes(),
        ),
        None => monitor.name.bytes() == name,
    }
}

/// The place of the monitor that is shown by this name.
fn monitor_named(bindings: &Bindings, name: &[u8]) -> Option<usize>
    ensures { result ≡ position (is_named bindings.now.containers name.now) bindings.now.monitors.items }
{
    let containers = &bindings.containers;
    bindings
        .monitors
        .iter()
        .position(|monitor| is_named(containers, monitor, name))
}

/// The task of this pid. The idle tasks have none.
fn task_by(tasks: &Tasks, pid: u64) -> Option<u32>
    ensures value { result ≡ task_by tasks.now pid }
    ensures range { IfSome result (λ task. task < length tasks.now) }
{
    if pid == 0 || pid > u32::MAX as u64 {
        return None;
    }
    tasks.find(pid as u32, 0)
}

/// The instance of this number, where a monitor of the scope has one.
fn instance_by(tasks: &Tasks, scope: Scope, number: u64) -> Option<u32>
    ensures value { result ≡ instance_by tasks.now scope number }
    ensures range { IfSome result (λ instance. instance < count_of (length tasks.now) scope) }
{
    match scope {
        Scope::Global if number == 0 => Some(0),
        Scope::Cpu if number < CPUS as u64 => Some(number as u32),
        Scope::Task => task_by(tasks, number),
        Scope::Global | Scope::Cpu => None,
    }
}

/// The slot of the instance that the text names, of the monitor at this place.
fn slot_in(shape: &Shape, tasks: &Tasks, place: u8, text: &[u8], scope: Scope) -> Option<u32>
    requires place { place < length shape.now }
    requires scope { slice_index shape.now place ≡ count_of (length tasks.now) scope }
    ensures value { result ≡ slot_in shape.now tasks.now place text.now scope }
    ensures range { IfSome result (λ slot. slot < sum shape.now) }
{
    let number = decimal(text)?;
    let instance = instance_by(tasks, scope, number)?;
    Some(shape.slot(place, instance))
}

/// The slot that the words MONITOR and INSTANCE name: a monitor's display name, and 0 for a global monitor, the CPU for
/// a cpu monitor, or the pid for a task monitor. There is none where MONITOR is no display name, or INSTANCE is no decimal,
/// is not 0, is over 63, or is 0 or the pid of no task that is held.
pub fn watched_slot(
    bindings: &Bindings,
    tasks: &Tasks,
    shape: &Shape,
    monitor: &[u8],
    instance: &[u8],
) -> Option<u32>
    requires monitors { length bindings.now.monitors.items ≤ 32 }
    requires shape { shape.now ≡ shape_of bindings.now.monitors.items (length tasks.now) }
    ensures value { result ≡ slot_named bindings.now.containers bindings.now.monitors.items tasks.now monitor.now instance.now }
    ensures range { IfSome result (λ slot. slot < sum shape.now) }
{
    let place = monitor_named(bindings, monitor)?;
    let scope = bindings.monitors[place].scope;
    slot_in(shape, tasks, place as u8, instance, scope)
}
