//! Histories of automata. The events of wip are preempt_disable 0, preempt_enable 1 and sched_waking 2;
//! it begins in row 1, preemptive, and row 2 is non_preemptive.
use crate::plain::given::Does::{Clear, End, Event, Start, StartRun, Stop};
use crate::plain::given::{GivenStep, ROW_1, ROW_2, WAITS, check_all, two_automata};
use rv_model::Answer;
use std::test::Fail;

#[test]
fn runs_begin_go_on_and_fail(rt: HostRuntime) -> Result<(), Fail> {
    let plan = two_automata(rt.alloc())?;
    const CASES: &[(&str, &[GivenStep])] = &[
        (
            "the worked trace",
            &[
                (2, Start(0, 1), ROW_1, Answer::Started),
                (2, Event(0, 0), ROW_2, Answer::Kept),
                (2, Event(0, 2), ROW_2, Answer::Kept),
                (2, Start(0, 1), ROW_1, Answer::Kept),
                (2, Event(0, 2), WAITS, Answer::Failed(2)),
            ],
        ),
        (
            "a letter before any start",
            &[(2, Event(0, 2), WAITS, Answer::Passed)],
        ),
        (
            "a start whose event is not run",
            &[
                (2, Start(0, 1), ROW_1, Answer::Started),
                (2, Event(0, 1), WAITS, Answer::Failed(2)),
            ],
        ),
        (
            "a start by an event that the state allows",
            &[
                (2, Start(0, 0), ROW_1, Answer::Started),
                (2, Event(0, 0), ROW_2, Answer::Kept),
            ],
        ),
        (
            "a start_run whose letter is allowed",
            &[
                (2, StartRun(0, 0), ROW_2, Answer::Started),
                (2, Event(0, 2), ROW_2, Answer::Kept),
            ],
        ),
        (
            "a start_run whose letter fails",
            &[
                (2, StartRun(0, 1), WAITS, Answer::Failed(2)),
                (2, Event(0, 0), WAITS, Answer::Passed),
                (2, StartRun(0, 0), ROW_2, Answer::Started),
            ],
        ),
        (
            "two failures",
            &[
                (2, Start(0, 1), ROW_1, Answer::Started),
                (2, Event(0, 2), WAITS, Answer::Failed(2)),
                (2, Start(0, 1), ROW_1, Answer::Started),
                (2, Event(0, 2), WAITS, Answer::Failed(2)),
            ],
        ),
        (
            "two failures at starts",
            &[
                (2, StartRun(0, 2), WAITS, Answer::Failed(2)),
                (2, StartRun(0, 2), WAITS, Answer::Failed(2)),
            ],
        ),
    ];
    check_all(&rt, rt.alloc(), &plan, CASES)?;
    Ok(())
}

#[test]
fn a_failure_leaves_the_instance_waiting(rt: HostRuntime) -> Result<(), Fail> {
    let plan = two_automata(rt.alloc())?;
    const CASES: &[(&str, &[GivenStep])] = &[
        (
            "a failure in the second row",
            &[
                (2, Start(0, 1), ROW_1, Answer::Started),
                (2, Event(0, 0), ROW_2, Answer::Kept),
                (2, Event(0, 0), WAITS, Answer::Failed(4)),
            ],
        ),
        (
            "events after a failure",
            &[
                (2, Start(0, 1), ROW_1, Answer::Started),
                (2, Event(0, 2), WAITS, Answer::Failed(2)),
                (2, Event(0, 0), WAITS, Answer::Passed),
                (2, Event(0, 2), WAITS, Answer::Passed),
            ],
        ),
        (
            "a start while it runs is an ordinary letter",
            &[
                (2, Start(0, 1), ROW_1, Answer::Started),
                (2, Start(0, 1), WAITS, Answer::Failed(2)),
            ],
        ),
        (
            "a start_run while it runs is an ordinary letter",
            &[
                (2, Start(0, 1), ROW_1, Answer::Started),
                (2, StartRun(0, 0), ROW_2, Answer::Kept),
                (2, StartRun(0, 2), ROW_2, Answer::Kept),
                (2, StartRun(0, 0), WAITS, Answer::Failed(4)),
            ],
        ),
        (
            "a run begins anew in the initial state",
            &[
                (2, Start(0, 1), ROW_1, Answer::Started),
                (2, Event(0, 0), ROW_2, Answer::Kept),
                (2, Event(0, 0), WAITS, Answer::Failed(4)),
                (2, Start(0, 0), ROW_1, Answer::Started),
            ],
        ),
    ];
    check_all(&rt, rt.alloc(), &plan, CASES)?;
    Ok(())
}

#[test]
fn a_stopped_instance_passes_all_until_it_is_cleared(rt: HostRuntime) -> Result<(), Fail> {
    let plan = two_automata(rt.alloc())?;
    const CASES: &[(&str, &[GivenStep])] = &[
        (
            "a stop, passed events, a clear, a start",
            &[
                (2, Start(0, 1), ROW_1, Answer::Started),
                (2, Stop(0), 0, Answer::Stopped),
                (2, Event(0, 0), 0, Answer::Passed),
                (2, Start(0, 1), 0, Answer::Passed),
                (1, Clear(0), WAITS, Answer::Cleared),
                (2, Start(0, 1), ROW_1, Answer::Started),
            ],
        ),
        (
            "a stop while it waits",
            &[
                (2, Stop(0), 0, Answer::Stopped),
                (2, StartRun(0, 0), 0, Answer::Passed),
            ],
        ),
        (
            "a stop of a stopped instance",
            &[
                (2, Stop(0), 0, Answer::Stopped),
                (2, Stop(0), 0, Answer::Stopped),
                (1, Clear(0), WAITS, Answer::Cleared),
            ],
        ),
        (
            "a clear while it runs",
            &[
                (2, Start(0, 1), ROW_1, Answer::Started),
                (1, Clear(0), WAITS, Answer::Cleared),
                (2, Event(0, 0), WAITS, Answer::Passed),
            ],
        ),
        (
            "a clear while it waits",
            &[(1, Clear(0), WAITS, Answer::Cleared)],
        ),
        (
            "a stop after a failure",
            &[
                (2, StartRun(0, 1), WAITS, Answer::Failed(2)),
                (2, Stop(0), 0, Answer::Stopped),
                (2, StartRun(0, 1), 0, Answer::Passed),
            ],
        ),
    ];
    check_all(&rt, rt.alloc(), &plan, CASES)?;
    Ok(())
}

#[test]
fn an_ended_instance_waits_again(rt: HostRuntime) -> Result<(), Fail> {
    let plan = two_automata(rt.alloc())?;
    const CASES: &[(&str, &[GivenStep])] = &[
        (
            "a stop, passed events, an end, a start",
            &[
                (2, Start(0, 1), ROW_1, Answer::Started),
                (2, Stop(0), 0, Answer::Stopped),
                (2, Start(0, 1), 0, Answer::Passed),
                (3, End(0), WAITS, Answer::Ended),
                (2, Start(0, 1), ROW_1, Answer::Started),
            ],
        ),
        (
            "an end while it runs",
            &[
                (2, Start(0, 1), ROW_1, Answer::Started),
                (2, Event(0, 0), ROW_2, Answer::Kept),
                (2, End(0), WAITS, Answer::Ended),
                (2, Event(0, 0), WAITS, Answer::Passed),
                (2, Start(0, 1), ROW_1, Answer::Started),
            ],
        ),
        (
            "an end while it waits",
            &[
                (2, End(0), WAITS, Answer::Ended),
                (3, End(0), WAITS, Answer::Ended),
            ],
        ),
        (
            "a stop after an end",
            &[
                (2, End(0), WAITS, Answer::Ended),
                (2, Stop(0), 0, Answer::Stopped),
            ],
        ),
        (
            "an end of the other instance",
            &[
                (2, Start(0, 1), ROW_1, Answer::Started),
                (3, End(1), WAITS, Answer::Ended),
                (2, Event(0, 0), ROW_2, Answer::Kept),
            ],
        ),
    ];
    check_all(&rt, rt.alloc(), &plan, CASES)?;
    Ok(())
}

#[test]
fn instances_and_monitors_are_apart(rt: HostRuntime) -> Result<(), Fail> {
    let plan = two_automata(rt.alloc())?;
    const CASES: &[(&str, &[GivenStep])] = &[
        (
            "two instances",
            &[
                (2, Start(0, 1), ROW_1, Answer::Started),
                (3, Event(1, 0), WAITS, Answer::Passed),
                (3, Start(1, 1), ROW_1, Answer::Started),
                (2, Event(0, 0), ROW_2, Answer::Kept),
                (3, Event(1, 2), WAITS, Answer::Failed(2)),
                (2, Event(0, 2), ROW_2, Answer::Kept),
            ],
        ),
        (
            "a stop of the other instance",
            &[
                (2, Start(0, 1), ROW_1, Answer::Started),
                (3, Stop(1), 0, Answer::Stopped),
                (2, Event(0, 0), ROW_2, Answer::Kept),
                (1, Clear(0), WAITS, Answer::Cleared),
                (3, Start(1, 1), 0, Answer::Passed),
            ],
        ),
        (
            "many CPUs on one instance",
            &[
                (2, Start(0, 1), ROW_1, Answer::Started),
                (3, Event(0, 0), ROW_2, Answer::Kept),
                (4, Event(0, 2), ROW_2, Answer::Kept),
                (2, Event(0, 1), ROW_1, Answer::Kept),
            ],
        ), // switch_in 0, switch_out 1, wakeup 2; row 1 is not_running, row 2 running
        (
            "the second monitor",
            &[
                (2, Event(2, 2), WAITS, Answer::Passed),
                (2, Start(2, 1), ROW_1, Answer::Started),
                (2, Event(2, 2), ROW_1, Answer::Kept),
                (2, Event(2, 0), ROW_2, Answer::Kept),
                (2, Event(2, 2), WAITS, Answer::Failed(4)),
            ],
        ),
    ];
    check_all(&rt, rt.alloc(), &plan, CASES)?;
    Ok(())
}
