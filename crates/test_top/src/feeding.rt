//! What no clause says of scripts at once: that they run at once, and on one board.
use crate::files::{GLOBAL, RACE, store_of};
use crate::holding::{Count, HeldAt, Wait};
use crate::run_held;
use std::test::Fail;

/// Each waits before its first turn until the other has come.
const MEETING: [Wait; 2] = [
    Wait(0, HeldAt::Turn(0), 1, Count::Turns(1)),
    Wait(1, HeldAt::Turn(0), 0, Count::Turns(1)),
];

/// CPU 1 waits before its turn until CPU 0 has come to its fifth delivery.
const HALT_FIRST: [Wait; 2] = [
    Wait(0, HeldAt::Turn(0), 1, Count::Turns(1)),
    Wait(1, HeldAt::Turn(0), 0, Count::Tries(5)),
];

/// The loser has one delivery, and loses each of its three tries to a turn of the other.
pub(crate) fn race(loser: u32, other: u32) -> [Wait; 7] {
    [
        Wait(loser, HeldAt::Turn(0), other, Count::Turns(2)),
        Wait(other, HeldAt::Turn(1), loser, Count::Tries(1)),
        Wait(loser, HeldAt::Lost(0), other, Count::Turns(3)),
        Wait(other, HeldAt::Turn(2), loser, Count::Tries(2)),
        Wait(loser, HeldAt::Lost(1), other, Count::Turns(4)),
        Wait(other, HeldAt::Turn(3), loser, Count::Tries(3)),
        Wait(loser, HeldAt::Lost(2), other, Count::Turns(5)),
    ]
}

/// An instance for each CPU, the first failure of which halts all.
const HALTING: &str = "monitor wip cpu da wip.dot
on wip preempt_disable : event preempt_disable
on wip preempt_enable : start preempt_enable
on wip sched_waking : event sched_waking
react wip panic
";

/// A start on each CPU.
const STARTS: &str = "t-1 [000] 1.000001: preempt_enable:
t-1 [001] 1.000002: preempt_enable:
";

/// A waking outside of a section on CPU 0, and then a start on CPU 1.
const FAILURE: &str = "t-1 [000] 1.000001: preempt_enable:
t-1 [000] 1.000002: preempt_disable:
t-1 [000] 1.000003: sched_waking:
t-1 [000] 1.000004: preempt_enable:
t-1 [000] 1.000005: sched_waking:
t-1 [001] 1.000006: preempt_enable:
";

/// What the two starts come to: the later one finds no section to leave.
const MET: &str = "wip: instances 1, deliveries 2, failures 1, stopped 0\n";

/// What comes of the failure where the start is cut off.
const CUT_OFF: &str =
    "rv: panic: monitor wip[cpu 0] does not allow event sched_waking on state preemptive (line 5)
wip: instances 1, deliveries 5, failures 1, stopped 0
";

/// What comes of it where the start comes before the halt.
const BEHIND: &str =
    "rv: panic: monitor wip[cpu 0] does not allow event sched_waking on state preemptive (line 5)
wip: instances 2, deliveries 6, failures 1, stopped 0
";

/// What the race comes to.
const STOPPED: &str = "wip: instances 1, deliveries 6, failures 0, stopped 1\n";

#[test]
fn cpus_run_at_once_on_one_board(rt: HostRuntime) -> Result<(), Fail> {
    let race = race(0, 1);
    // The waits, the bindings, the trace, the status, and the texts that may come.
    let cases = [
        (MEETING.as_slice(), GLOBAL, STARTS, 1, MET, MET),
        (HALT_FIRST.as_slice(), HALTING, FAILURE, 1, CUT_OFF, BEHIND),
        (race.as_slice(), GLOBAL, RACE, 6, STOPPED, STOPPED),
    ];
    for (waits, bindings, trace, status, text, other) in cases {
        let mut store = store_of(rt.alloc(), bindings, trace)?;
        let came = run_held(&rt, rt.alloc(), "feed wip.rv wip.txt", &mut store, waits)?;
        let agrees = came.is(status, text) || came.is(status, other);
        assert!(rt; agrees, "{}", came.text());
    }
    Ok(())
}
