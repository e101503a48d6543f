//! How monitors and their instances are called.
ghost use Rattle.std.specs.Prelude.{◌≡◌, ◌++◌, OnOk};
ghost use Rattle.rv_model.specs.Reports.{task_at, task_text, place_text};
ghost use Rattle.rv_report.specs.Reported.{shown_by};

use crate::names::put_name;
use rv_model::{Name, Names, Scope, Task};
use rv_slots::Tasks;
use rv_text::Line;
use std::alloc::AllocError;

/// Appends a monitor's display name.
pub fn display_name(
    out: &mut Line,
    containers: &Names,
    container: Option<u8>,
    name: &Name,
) -> Result<(), AllocError>
    ensures { OnOk result (out.new ≡ out.old ++ shown_by containers.now container name.now) }
{
    match container {
        Some(place) => {
            put_name(out, containers, place as usize)?;
            out.text(b":")?;
        }
        None => (),
    }
    out.text(name.bytes())
}

/// The task of this number, and the idle task of CPU 0 where there is none.
fn task_at(tasks: &Tasks, number: u32) -> Task
    ensures { result ≡ task_at tasks.now number }
{
    if number < tasks.len() {
        tasks.task(number)
    } else {
        Task { pid: 0, cpu: 0 }
    }
}

/// Appends a task's pid, and behind that of an idle task its CPU.
fn task(out: &mut Line, task: Task) -> Result<(), AllocError>
    ensures { OnOk result (out.new ≡ out.old ++ task_text task) }
{
    out.number(task.pid as u64)?;
    if task.pid == 0 {
        out.text(b" cpu ")?;
        out.number(task.cpu as u64)?;
    }
    Ok(())
}

/// Appends which instance of its monitor it is.
pub(crate) fn place(
    out: &mut Line,
    tasks: &Tasks,
    scope: Scope,
    instance: u32,
) -> Result<(), AllocError>
    ensures { OnOk result (out.new ≡ out.old ++ place_text tasks.now scope instance) }
{
    match scope {
        Scope::Global => Ok(()),
        Scope::Cpu => {
            out.text(b"[cpu ")?;
            out.number(instance as u64)?;
            out.text(b"]")
        }
        Scope::Task => {
            out.text(b"[task ")?;
            task(out, task_at(tasks, instance))?;
            out.text(b"]")
        }
    }
}
