//! What no clause says: that the calls succeed with memory to spare.
use rv_model::Scope;
use rv_slots::{Place, Shape, Tasks};
use std::test::Fail;

#[test]
fn idle_tasks_are_one_for_each_cpu(rt: HostRuntime) -> Result<(), Fail> {
    let mut tasks = Tasks::new(rt.alloc());
    const CASES: &[(u32, u8, u32)] = &[
        (7, 1, 0),
        (0, 0, 1),
        (0, 1, 2),
        (7, 0, 0),
        (0, 0, 1),
        (8, 1, 3),
    ];
    for &(pid, cpu, number) in CASES {
        let given = tasks.number(pid, cpu)?;
        assert!(rt;
            given == number && tasks.find(pid, cpu) == Some(number),
            "at {pid} on {cpu}"
        );
    }
    assert!(rt; tasks.len() == 4);
    Ok(())
}

#[test]
fn slots_are_numbered_by_monitor_and_instance(rt: HostRuntime) -> Result<(), Fail> {
    let scopes = [Scope::Global, Scope::Task, Scope::Cpu];
    let shape = Shape::new(rt.alloc(), &scopes, 3)?;
    assert!(rt; shape.slots() == 68);
    const PLACES: &[(u32, u8, u32)] = &[(0, 0, 0), (3, 1, 2), (4, 2, 0), (67, 2, 63)];
    for &(slot, monitor, instance) in PLACES {
        assert!(rt; slot < shape.slots() && shape.place(slot) == Place { monitor, instance });
    }
    Ok(())
}
