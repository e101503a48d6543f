//! The input as it is read.
use rv_gen::generate;
use std::test::Fail;

#[test]
fn a_block_has_eight_events_of_each_cpu(rt: HostRuntime) -> Result<(), Fail> {
    let files = generate(rt.alloc(), 2)?;
    let text = files.trace.as_slice();
    const CASES: &[(usize, &str)] = &[
        (
            0,
            "t-100 [000] 100.000000: preempt_enable: caller=a parent=b",
        ),
        (
            9,
            "t-102 [001] 100.000009: preempt_disable: caller=a parent=b",
        ),
        (
            18,
            "t-104 [002] 100.000018: sched_waking: comm=t pid=104 prio=120 target_cpu=002",
        ),
        (
            43,
            "t-106 [003] 100.000043: sched_switch: prev_comm=t prev_pid=106 prev_prio=120 prev_state=S ==> next_comm=u next_pid=107 next_prio=120",
        ),
        (
            55,
            "t-114 [007] 100.000055: sched_wakeup: comm=t pid=114 prio=120 target_cpu=007",
        ),
        (
            127,
            "t-114 [007] 100.000127: sched_switch: prev_comm=u prev_pid=115 prev_prio=120 prev_state=R ==> next_comm=t next_pid=114 next_prio=120",
        ),
    ];
    let mut number: usize = 0;
    for line in text.split(|byte| *byte == b'\n') {
        for &(at, wanted) in CASES {
            if at == number {
                assert!(rt; line == wanted.as_bytes(), "at line {at}");
            }
        }
        number = number.wrapping_add(1);
    }
    assert!(rt; number == 129);
    Ok(())
}
