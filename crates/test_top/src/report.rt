//! What no clause says of a report of records: that there is one where memory is ample.
use crate::files::{BINDINGS, store_of};
use rv_bind::read_bindings;
use rv_model::{Answer, Delivered, Hit, Mode, Record, What};
use rv_report::report;
use rv_slots::Tasks;
use std::test::Fail;

#[test]
fn a_failure_is_reported(rt: HostRuntime) -> Result<(), Fail> {
    let mut store = store_of(rt.alloc(), BINDINGS, "")?;
    let Ok(bound) = read_bindings(rt.alloc(), &mut store, "wip.rv") else {
        assert!(rt; false, "no bindings");
        return Ok(());
    };
    let record = Record {
        order: 0,
        line: 5,
        monitor: 0,
        instance: 0,
        hit: Hit {
            mode: Mode::Event,
            what: What::Da { event: 2 },
        },
        outcome: Delivered::Done(Answer::Failed(2)),
        reacting: true,
    };
    let tasks = Tasks::new(rt.alloc());
    let text = report(rt.alloc(), &bound.bindings, &tasks, &[record])?;
    let wanted =
        "rv: monitor wip[cpu 0] does not allow event sched_waking on state preemptive (line 5)
wip: instances 1, deliveries 1, failures 1, stopped 0
";
    assert!(rt; text.as_slice() == wanted.as_bytes());
    Ok(())
}
