//! What no clause says of a control script beside the CPUs: that both run. They are held in turn.
use crate::files::{BINDINGS, TRACE, store_of};
use crate::holding::{ACTOR, Count, HeldAt, Wait};
use crate::run_held;
use std::test::Fail;

/// The CPU waits before its first turn for the second change.
const BEFORE_ALL: [Wait; 1] = [Wait(0, HeldAt::Turn(0), ACTOR, Count::Turns(2))];

/// The first change waits for the CPU's fifth turn, and the CPU there for the second one.
const BEFORE_THE_FIFTH: [Wait; 2] = [
    Wait(ACTOR, HeldAt::Turn(0), 0, Count::Turns(5)),
    Wait(0, HeldAt::Turn(4), ACTOR, Count::Turns(2)),
];

/// The first change waits for the CPU's fifth turn, and the CPU there for the third one.
const TWO_BEFORE_THE_FIFTH: [Wait; 2] = [
    Wait(ACTOR, HeldAt::Turn(0), 0, Count::Turns(5)),
    Wait(0, HeldAt::Turn(4), ACTOR, Count::Turns(3)),
];

/// The monitor goes off, and then there is one change more, of nothing.
const OFF: &str = "write monitors/wip/enable 0
write monitoring_on 1
";

/// The monitor goes off and on again, and then there is one change more.
const OFF_AND_ON: &str = "write monitors/wip/enable 0
write monitors/wip/enable 1
write monitoring_on 1
";

#[test]
fn a_script_runs_beside_the_cpus(rt: HostRuntime) -> Result<(), Fail> {
    let none = "wip: instances 0, deliveries 0, failures 0, stopped 0\n";
    let four = "wip: instances 1, deliveries 4, failures 0, stopped 0\n";
    // Behind the change it waits again, and passes the fifth event.
    let five = "wip: instances 1, deliveries 5, failures 0, stopped 0\n";
    let cases = [
        (BEFORE_ALL.as_slice(), OFF, none),
        (BEFORE_THE_FIFTH.as_slice(), OFF, four),
        (TWO_BEFORE_THE_FIFTH.as_slice(), OFF_AND_ON, five),
    ];
    for (waits, script, text) in cases {
        let mut store = store_of(rt.alloc(), BINDINGS, TRACE)?;
        store.add("c.ctl", script.as_bytes())?;
        let command = "feed wip.rv wip.txt c.ctl";
        let came = run_held(&rt, rt.alloc(), command, &mut store, waits)?;
        assert!(rt; came.is(0, text), "{}", came.text());
    }
    Ok(())
}
