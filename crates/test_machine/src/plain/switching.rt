//! Histories of the switches, and what lies between an instance's events.
use crate::plain::given::Does::{Event, Look, Lower, Raise, Start};
use crate::plain::given::{GivenStep, OPENING, ROW_1, ROW_2, check_all, two_automata};
use rv_model::Answer;
use std::test::Fail;

const MONITORING: u64 = 1 << 32;

const REACTING: u64 = 1 << 33;

const HALTED: u64 = 1 << 34;

#[test]
fn the_newest_change_of_a_switch_counts(rt: HostRuntime) -> Result<(), Fail> {
    let plan = two_automata(rt.alloc())?;
    const CASES: &[(&str, &[GivenStep])] = &[
        (
            "the opening switches",
            &[(2, Look, OPENING, Answer::Looked(OPENING))],
        ),
        (
            "monitoring off and on",
            &[
                (1, Lower(MONITORING), 3 + REACTING, Answer::Switched),
                (2, Look, 3 + REACTING, Answer::Looked(3 + REACTING)),
                (1, Raise(MONITORING), OPENING, Answer::Switched),
                (2, Look, OPENING, Answer::Looked(OPENING)),
            ],
        ),
        (
            "a switch that is on already",
            &[
                (1, Raise(MONITORING + 1), OPENING, Answer::Switched),
                (1, Lower(4), OPENING, Answer::Switched),
                (1, Raise(0), OPENING, Answer::Switched),
            ],
        ),
        (
            "many switches at once",
            &[
                (1, Lower(3 + REACTING), MONITORING, Answer::Switched),
                (1, Raise(2), 2 + MONITORING, Answer::Switched),
                (1, Lower(MONITORING + 1), 2, Answer::Switched),
                (1, Raise(REACTING + 1), 3 + REACTING, Answer::Switched),
            ],
        ),
        (
            "a halt seen",
            &[
                (3, Raise(HALTED), OPENING + HALTED, Answer::Switched),
                (2, Look, OPENING + HALTED, Answer::Looked(OPENING + HALTED)),
            ],
        ),
    ];
    check_all(&rt, rt.alloc(), &plan, CASES)?;
    Ok(())
}

#[test]
fn what_lies_between_changes_no_instance(rt: HostRuntime) -> Result<(), Fail> {
    let plan = two_automata(rt.alloc())?;
    let cases: [(&str, &[GivenStep]); 2] = [
        (
            "a look between",
            &[
                (2, Start(0, 1), ROW_1, Answer::Started),
                (2, Look, OPENING, Answer::Looked(OPENING)),
                (2, Event(0, 0), ROW_2, Answer::Kept),
            ],
        ),
        (
            "switches between",
            &[
                (2, Start(0, 1), ROW_1, Answer::Started),
                (1, Lower(1), 2 + MONITORING + REACTING, Answer::Switched),
                (2, Event(0, 0), ROW_2, Answer::Kept),
                (1, Raise(1), OPENING, Answer::Switched),
                (3, Raise(HALTED), OPENING + HALTED, Answer::Switched),
                (2, Event(0, 2), ROW_2, Answer::Kept),
            ],
        ),
    ];
    check_all(&rt, rt.alloc(), &plan, &cases)?;
    Ok(())
}
