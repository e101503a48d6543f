//! What is one task.
ghost use Rattle.std.specs.Prelude.{◌≡◌};
ghost use Rattle.rv_slots.specs.Tasks.{task_of};

use rv_model::Task;

/// The task that a pid is on a CPU.
pub(crate) fn task_of(pid: u32, cpu: u8) -> Task
    ensures { result ≡ task_of pid cpu }
{
    Task {
        pid,
        cpu: if pid == 0 { cpu } else { 0 },
    }
}
