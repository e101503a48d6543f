//! What was routed.
ghost use Rattle.std.specs.Prelude.{◌≡◌, ◌<◌, ◌+◌, ◌≤◌, ◌++◌, [], length, All};
ghost use Rattle.std.specs.Vec.{vec_len, vec_capacity};
ghost use Rattle.rv_route.specs.Lanes.{IsLane};
ghost use Rattle.rv_route.specs.LineByLine.{works_of, work_in};

use crate::lanes::CpuScript;
use rv_model::CpuWork;
use rv_slots::Tasks;

/// The tasks by first use, and the works of the CPUs that have a delivery, ascending by CPU.
#[derive(Drop)]
pub struct Routed {
    pub tasks: Tasks,
    pub works: Vec<CpuWork>,
}

/// The work of a CPU, if it has any.
fn keep(works: &mut Vec<CpuWork>, cpu: u8, lane: CpuScript)
    requires lane { IsLane lane }
    requires room { vec_len works.old < vec_capacity works.old }
    ensures kept { works.new.items ≡ works.old.items ++ work_in cpu lane }
    ensures few { vec_len works.new ≤ vec_len works.old + 1 }
    ensures room { vec_capacity works.old ≤ vec_capacity works.new }
{
    let CpuScript { turns, deliveries } = lane;
    if deliveries.is_empty() {
        return;
    }
    let work = CpuWork {
        cpu,
        turns,
        deliveries,
    };
    match works.push(work) {
        Ok(()) => {}
        Err(_) => unreachable!(),
    }
}

/// The works of the CPUs that have any, by CPU, where there is room for them.
pub(crate) fn works_in(room: Vec<CpuWork>, lanes: Vec<CpuScript>) -> Vec<CpuWork>
    requires empty { room.items ≡ [] }
    requires room { 64 ≤ vec_capacity room }
    requires many { length lanes.items ≡ 64 }
    requires lanes { All IsLane lanes.items }
    ensures { result.items ≡ works_of lanes.items }
{
    let mut works = room;
    let mut cpu = 0;
    for lane in lanes {
        keep(&mut works, cpu, lane);
        cpu += 1;
    }
    works
}
