//! Histories of rules. An atom's place is its letter's: A is 1, B is 2 in a set. A row's labels are its texts.
use crate::plain::given::Does::{Atoms, Clear, End, RunAtoms, Stop};
use crate::plain::given::{GivenStep, ROW_1, ROW_2, ROW_3, WAITS, check_all, one_rule, rows};
use rv_model::Answer;
use rv_reference::Plan;
use std::alloc::{AllocError, Global};
use std::process::Abort;
use std::test::Fail;

/// Always (B imply not A): B for a real-time task that runs, A for a page fault. The atoms in `start` are on at first.
fn page_fault(rt: &impl Abort, alloc: Global, start: u32) -> Result<Plan, AllocError> {
    let nodes = rows(rt, alloc, &[(&[], 2), (&["BA!>"], 2)])?;
    one_rule(rt, alloc, "BA!>a", nodes, start)
}

#[test]
fn a_level_stays_and_a_pulse_does_not(rt: HostRuntime) -> Result<(), Fail> {
    let plan = page_fault(&rt, rt.alloc(), 0)?;
    const CASES: &[(&str, &[GivenStep])] = &[
        (
            "the worked trace",
            &[
                (2, RunAtoms(2, 0, 0), ROW_1 + 2, Answer::Started),
                (2, Atoms(0, 0, 1), WAITS + 2, Answer::Failed(2)),
                (2, RunAtoms(2, 0, 0), ROW_1 + 2, Answer::Started),
                (2, Atoms(0, 0, 1), WAITS + 2, Answer::Failed(2)),
            ],
        ),
        (
            "a pulse that does not last",
            &[
                (2, RunAtoms(0, 0, 1), ROW_1, Answer::Started),
                (2, Atoms(2, 0, 0), ROW_1 + 2, Answer::Kept),
            ],
        ),
        (
            "a level that lasts",
            &[
                (2, RunAtoms(1, 0, 0), ROW_1 + 1, Answer::Started),
                (2, Atoms(2, 0, 0), WAITS + 3, Answer::Failed(2)),
            ],
        ),
        (
            "a level that outlives a failure",
            &[
                (2, RunAtoms(2, 0, 0), ROW_1 + 2, Answer::Started),
                (2, Atoms(0, 0, 1), WAITS + 2, Answer::Failed(2)),
                (2, Atoms(0, 0, 0), WAITS + 2, Answer::Passed),
                (2, RunAtoms(0, 0, 1), WAITS + 2, Answer::Failed(1)),
            ],
        ),
        (
            "a level that changes while it waits",
            &[
                (2, Atoms(2, 0, 0), WAITS + 2, Answer::Passed),
                (2, RunAtoms(0, 0, 1), WAITS + 2, Answer::Failed(1)),
                (2, Atoms(0, 2, 0), WAITS, Answer::Passed),
                (2, RunAtoms(0, 0, 1), ROW_1, Answer::Started),
            ],
        ),
        (
            "a level that goes off",
            &[
                (2, RunAtoms(2, 0, 0), ROW_1 + 2, Answer::Started),
                (2, Atoms(0, 2, 0), ROW_1, Answer::Kept),
                (2, Atoms(0, 0, 1), ROW_1, Answer::Kept),
            ],
        ),
        (
            "an atom that goes both on and off is on",
            &[
                (2, RunAtoms(2, 2, 0), ROW_1 + 2, Answer::Started),
                (2, Atoms(2, 2, 1), WAITS + 2, Answer::Failed(2)),
            ],
        ),
        (
            "a level and a pulse of one atom",
            &[
                (2, RunAtoms(1, 0, 1), ROW_1 + 1, Answer::Started),
                (2, Atoms(0, 1, 1), ROW_1, Answer::Kept),
            ],
        ),
    ];
    check_all(&rt, rt.alloc(), &plan, CASES)?;
    Ok(())
}

#[test]
fn a_clear_gives_the_starting_values_back(rt: HostRuntime) -> Result<(), Fail> {
    let plan = page_fault(&rt, rt.alloc(), 0)?;
    let cases: [(&str, &[GivenStep]); 2] = [
        (
            "all off at first",
            &[
                (2, RunAtoms(2, 0, 0), ROW_1 + 2, Answer::Started),
                (1, Clear(0), WAITS, Answer::Cleared),
                (2, RunAtoms(0, 0, 1), ROW_1, Answer::Started),
            ],
        ),
        (
            "levels while it is stopped",
            &[
                (2, Atoms(2, 0, 0), WAITS + 2, Answer::Passed),
                (2, Stop(0), 0, Answer::Stopped),
                (2, Atoms(1, 0, 0), 0, Answer::Passed),
                (1, Clear(0), WAITS, Answer::Cleared),
            ],
        ),
    ];
    check_all(&rt, rt.alloc(), &plan, &cases)?;
    let plan = page_fault(&rt, rt.alloc(), 2)?;
    let cases: [(&str, &[GivenStep]); 1] = [(
        "one on at first",
        &[
            (2, Atoms(0, 0, 0), WAITS + 2, Answer::Passed),
            (2, Atoms(0, 2, 0), WAITS, Answer::Passed),
            (1, Clear(0), WAITS + 2, Answer::Cleared),
            (2, RunAtoms(0, 0, 1), WAITS + 2, Answer::Failed(1)),
        ],
    )];
    check_all(&rt, rt.alloc(), &plan, &cases)?;
    Ok(())
}

#[test]
fn an_end_gives_the_starting_values_back(rt: HostRuntime) -> Result<(), Fail> {
    let plan = page_fault(&rt, rt.alloc(), 0)?;
    let cases: [(&str, &[GivenStep]); 2] = [
        (
            "all off at first",
            &[
                (2, RunAtoms(2, 0, 0), ROW_1 + 2, Answer::Started),
                (2, End(0), WAITS, Answer::Ended),
                (2, Atoms(0, 0, 1), WAITS, Answer::Passed),
                (2, RunAtoms(0, 0, 1), ROW_1, Answer::Started),
            ],
        ),
        (
            "levels while it is stopped",
            &[
                (2, Atoms(2, 0, 0), WAITS + 2, Answer::Passed),
                (2, Stop(0), 0, Answer::Stopped),
                (2, Atoms(1, 0, 0), 0, Answer::Passed),
                (3, End(0), WAITS, Answer::Ended),
            ],
        ),
    ];
    check_all(&rt, rt.alloc(), &plan, &cases)?;
    let plan = page_fault(&rt, rt.alloc(), 2)?;
    let cases: [(&str, &[GivenStep]); 1] = [(
        "one on at first",
        &[
            (2, Atoms(1, 2, 0), WAITS + 1, Answer::Passed),
            (2, End(0), WAITS + 2, Answer::Ended),
            (2, End(0), WAITS + 2, Answer::Ended),
            (2, RunAtoms(0, 0, 1), WAITS + 2, Answer::Failed(1)),
        ],
    )];
    check_all(&rt, rt.alloc(), &plan, &cases)?;
    Ok(())
}

#[test]
fn runs_of_small_rules(rt: HostRuntime) -> Result<(), Fail> {
    let nodes = rows(&rt, rt.alloc(), &[(&[], 2), (&[], 0)])?;
    let plan = one_rule(&rt, rt.alloc(), "0n", nodes, 0)?;
    let cases: [(&str, &[GivenStep]); 1] = [(
        "next false fails at the second letter",
        &[
            (2, RunAtoms(0, 0, 0), ROW_1, Answer::Started),
            (2, Atoms(0, 0, 0), WAITS, Answer::Failed(2)),
        ],
    )];
    check_all(&rt, rt.alloc(), &plan, &cases)?;
    let nodes = rows(
        &rt,
        rt.alloc(),
        &[(&[], 6), (&[], 6), (&["A"], 8), (&[], 8)],
    )?;
    let plan = one_rule(&rt, rt.alloc(), "Ae", nodes, 0)?;
    let cases: [(&str, &[GivenStep]); 1] = [(
        "eventually never fails weakly",
        &[
            (2, RunAtoms(0, 0, 0), ROW_1, Answer::Started),
            (2, Atoms(0, 0, 0), ROW_1, Answer::Kept),
            (2, Atoms(0, 0, 1), ROW_1 + ROW_2, Answer::Kept),
            (2, Atoms(0, 0, 0), ROW_1 + ROW_3, Answer::Kept),
        ],
    )];
    check_all(&rt, rt.alloc(), &plan, &cases)?;
    let nodes = rows(
        &rt,
        rt.alloc(),
        &[(&[], 6), (&["A"], 6), (&["B"], 8), (&[], 8)],
    )?;
    let plan = one_rule(&rt, rt.alloc(), "ABu", nodes, 0)?;
    const CASES: &[(&str, &[GivenStep])] = &[
        (
            "a start_run whose letter fails",
            &[
                (2, RunAtoms(0, 0, 0), WAITS, Answer::Failed(1)),
                (2, Atoms(0, 0, 1), WAITS, Answer::Passed),
            ],
        ),
        (
            "until",
            &[
                (2, RunAtoms(0, 0, 1), ROW_1, Answer::Started),
                (2, Atoms(0, 0, 1), ROW_1, Answer::Kept),
                (2, Atoms(0, 0, 2), ROW_2, Answer::Kept),
                (2, Atoms(0, 0, 0), ROW_3, Answer::Kept),
            ],
        ),
        (
            "until both ways",
            &[
                (2, RunAtoms(0, 0, 3), ROW_1 + ROW_2, Answer::Started),
                (2, Atoms(0, 0, 0), ROW_3, Answer::Kept),
            ],
        ),
        (
            "until neither",
            &[
                (2, RunAtoms(1, 0, 0), ROW_1 + 1, Answer::Started),
                (2, Atoms(0, 1, 0), WAITS, Answer::Failed(2)),
            ],
        ),
    ];
    check_all(&rt, rt.alloc(), &plan, CASES)?;
    Ok(())
}
