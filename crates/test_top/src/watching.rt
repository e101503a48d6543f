//! What no clause says of a watched run: that the slot is read while the CPUs run.
use crate::files::{BINDINGS, REPORT, TRACE, store_of};
use crate::holding::{Count, HeldAt, READER, Wait};
use crate::run_held;
use std::test::Fail;

/// The reader waits before its first reading for the CPU's third turn, and the CPU there for the third reading.
const BETWEEN: [Wait; 2] = [
    Wait(READER, HeldAt::Turn(0), 0, Count::Turns(3)),
    Wait(0, HeldAt::Turn(2), READER, Count::Turns(3)),
];

#[test]
fn a_slot_is_read_while_its_cpu_runs(rt: HostRuntime) -> Result<(), Fail> {
    let mut store = store_of(rt.alloc(), BINDINGS, TRACE)?;
    let command = "watch wip.rv wip.txt wip 0";
    let came = run_held(&rt, rt.alloc(), command, &mut store, &BETWEEN)?;
    let text = came.text();
    let agrees = came.status == 1
        && came.late == 0
        && text.starts_with(REPORT)
        && text.contains("watch: set 4 atoms 0\n")
        && text.ends_with("watch: set 1 atoms 0\n");
    assert!(rt; agrees, "{text}");
    Ok(())
}
