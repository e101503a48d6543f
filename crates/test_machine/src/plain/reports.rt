//! Records and status of small histories of two CPUs, whose works have a delivery or two a turn.
use crate::plain::given::Does::{End, Event, Look, Raise, Start, StartRun, Stop};
use crate::plain::given::{Does, OPENING, act_of, two_automata};
use rv_model::{Act, Answer, CpuWork, Delivered, Delivery, Entry, Hit, Mode, Record, Turn, What};
use rv_reference::works::{names_each, work};
use rv_reference::{Plan, status_of};
use std::alloc::{AllocError, Global};
use std::process::Abort;
use std::test::Fail;

const HALTED: u64 = 1 << 34;

const REACTING: u64 = 1 << 33;

const MONITORING: u64 = 1 << 32;

/// The delivery of this order: of the second monitor where the slot is its only one, else of the first.
fn delivery(order: u32, does: Does) -> Delivery {
    let (slot, hit) = match act_of(does) {
        Act::Deliver { slot, hit } => (slot, hit),
        Act::End { slot } => (
            slot,
            Hit {
                mode: Mode::End,
                what: What::Nothing,
            },
        ),
        _ => (
            0,
            Hit {
                mode: Mode::Event,
                what: What::Da { event: 0 },
            },
        ),
    };
    let (monitor, instance) = if slot == 2 { (1, 0) } else { (0, slot) };
    Delivery {
        order,
        monitor,
        instance,
        hit,
    }
}

/// A CPU's turns, each a line and where its deliveries begin and end, and its deliveries with their orders.
type CpuPart = (u8, &'static [(u32, u32, u32)], &'static [(u32, Does)]);

/// The works of these parts.
fn works_of(rt: &impl Abort, alloc: Global, parts: &[CpuPart]) -> Result<Vec<CpuWork>, AllocError> {
    let mut works = Vec::new(alloc);
    for (cpu, lines, done) in parts {
        let mut turns = Vec::new(alloc);
        for (line, from, to) in *lines {
            turns.push(Turn {
                line: *line,
                from: *from,
                to: *to,
            })?;
        }
        let mut deliveries = Vec::new(alloc);
        for (order, does) in *done {
            deliveries.push(delivery(*order, *does))?;
        }
        assert!(rt; deliveries.len() < 100);
        assert!(rt; names_each(0, turns.as_slice(), deliveries.len() as u32));
        works.push(work(alloc, *cpu, turns.as_slice(), deliveries.as_slice())?)?;
    }
    Ok(works)
}

/// A seat, what it does, and for a look the switches that it found.
type EntryRow = (u32, Does, u64);

/// The order, line, outcome and reacting of a record.
type Wanted = (u32, u32, Delivered, bool);

/// A history, its records and its status.
type Case<'a> = (&'a str, &'a [EntryRow], &'a [Wanted], u8);

/// Whether the record is this one.
fn is_wanted(made: &Record, wanted: &Wanted) -> bool {
    (made.order, made.line, made.outcome, made.reacting) == *wanted
}

/// Whether the history has these records, and this status.
fn agrees(
    rt: &impl Abort,
    alloc: Global,
    plan: &Plan,
    works: &[CpuWork],
    case: &Case,
) -> Result<bool, AllocError> {
    let (_, lines, wanted, status) = *case;
    let mut history: Vec<Entry> = Vec::new(alloc);
    for (seat, does, after) in lines {
        history.push(Entry {
            seat: *seat,
            act: act_of(*does),
            before: 0,
            after: *after,
        })?;
    }
    assert!(rt; plan.has_slots(history.as_slice()));
    let records = plan.records_of(alloc, works, history.as_slice())?;
    for (made, wanted) in records.iter().zip(wanted.iter()) {
        if !is_wanted(made, wanted) {
            return Ok(false);
        }
    }
    Ok(records.len() == wanted.len() && status_of(records.as_slice()) == status)
}

fn check_all(
    rt: &impl Abort,
    alloc: Global,
    parts: &[CpuPart],
    cases: &[Case],
) -> Result<(), AllocError> {
    let plan = two_automata(alloc)?;
    let works = works_of(rt, alloc, parts)?;
    for case in cases {
        assert!(rt;
            agrees(rt, alloc, &plan, works.as_slice(), case)?,
            "at {}",
            case.0
        );
    }
    Ok(())
}

#[test]
fn each_enabled_delivery_has_its_record(rt: HostRuntime) -> Result<(), Fail> {
    let parts: [CpuPart; 1] = [(
        0,
        &[(1, 0, 1), (2, 1, 2), (3, 2, 3), (4, 3, 4), (5, 4, 5)],
        &[
            (0, Start(0, 1)),
            (1, Event(0, 0)),
            (2, Event(0, 2)),
            (3, Start(0, 1)),
            (4, Event(0, 2)),
        ],
    )];
    let cases: [Case; 3] = [
        (
            "the worked trace",
            &[
                (2, Look, OPENING),
                (2, Start(0, 1), 0),
                (2, Look, OPENING),
                (2, Event(0, 0), 0),
                (2, Look, OPENING),
                (2, Event(0, 2), 0),
                (2, Look, OPENING),
                (2, Start(0, 1), 0),
                (2, Look, OPENING),
                (2, Event(0, 2), 0),
            ],
            &[
                (0, 1, Delivered::Done(Answer::Started), true),
                (1, 2, Delivered::Done(Answer::Kept), true),
                (2, 3, Delivered::Done(Answer::Kept), true),
                (3, 4, Delivered::Done(Answer::Kept), true),
                (4, 5, Delivered::Done(Answer::Failed(2)), true),
            ],
            1,
        ),
        (
            "monitoring off, a monitor off, reacting off, a halt seen",
            &[
                (2, Look, OPENING),
                (2, Start(0, 1), 0),
                (2, Look, 3 + REACTING),
                (2, Look, 2 + MONITORING + REACTING),
                (2, Look, 3 + MONITORING),
                (2, Start(0, 1), 0),
                (2, Look, OPENING + HALTED),
            ],
            &[
                (0, 1, Delivered::Done(Answer::Started), true),
                (3, 4, Delivered::Done(Answer::Failed(2)), false),
            ],
            1,
        ),
        ("nothing was done", &[], &[], 0),
    ];
    check_all(&rt, rt.alloc(), &parts, &cases)?;
    Ok(())
}

#[test]
fn turns_may_be_cut_and_instances_stopped(rt: HostRuntime) -> Result<(), Fail> {
    let parts: [CpuPart; 2] = [
        (
            0,
            &[(1, 0, 2), (3, 2, 3)],
            &[(0, StartRun(0, 1)), (1, Start(2, 1)), (3, Event(0, 0))],
        ),
        (1, &[(2, 0, 1)], &[(2, Start(1, 1))]),
    ];
    const CASES: &[Case] = &[
        (
            "a panic that cuts a turn short",
            &[
                (3, Look, OPENING),
                (2, Look, OPENING),
                (2, StartRun(0, 1), 0),
                (3, Start(1, 1), 0),
                (2, Raise(HALTED), 0),
            ],
            &[
                (0, 1, Delivered::Done(Answer::Failed(2)), true),
                (2, 2, Delivered::Done(Answer::Started), true),
            ],
            1,
        ),
        (
            "a halt that another CPU sees",
            &[
                (2, Look, OPENING),
                (2, StartRun(0, 1), 0),
                (2, Raise(HALTED), 0),
                (3, Look, OPENING + HALTED),
            ],
            &[(0, 1, Delivered::Done(Answer::Failed(2)), true)],
            1,
        ),
        (
            "an instance that was stopped",
            &[
                (2, Look, OPENING),
                (2, Stop(0), 0),
                (2, Start(2, 1), 0),
                (3, Look, OPENING),
                (3, Start(1, 1), 0),
                (2, Look, OPENING),
                (2, Event(0, 0), 0),
            ],
            &[
                (0, 1, Delivered::Racing, true),
                (1, 1, Delivered::Done(Answer::Started), true),
                (2, 2, Delivered::Done(Answer::Started), true),
                (3, 3, Delivered::Done(Answer::Passed), true),
            ],
            6,
        ),
        (
            "a failure and a stop",
            &[
                (2, Look, OPENING),
                (2, StartRun(0, 1), 0),
                (2, Start(2, 1), 0),
                (3, Look, OPENING),
                (3, Stop(1), 0),
            ],
            &[
                (0, 1, Delivered::Done(Answer::Failed(2)), true),
                (1, 1, Delivered::Done(Answer::Started), true),
                (2, 2, Delivered::Racing, true),
            ],
            1,
        ),
        (
            "a delivery of a monitor that is off",
            &[
                (2, Look, 1 + MONITORING + REACTING),
                (2, StartRun(0, 0), 0),
                (2, Look, OPENING),
                (2, Event(0, 2), 0),
            ],
            &[
                (0, 1, Delivered::Done(Answer::Started), true),
                (3, 3, Delivered::Done(Answer::Kept), true),
            ],
            0,
        ),
    ];
    check_all(&rt, rt.alloc(), &parts, CASES)?;
    Ok(())
}

#[test]
fn an_end_has_its_record_and_no_part_in_the_status(rt: HostRuntime) -> Result<(), Fail> {
    let parts: [CpuPart; 2] = [
        (
            0,
            &[(1, 0, 2), (3, 2, 4)],
            &[
                (0, StartRun(0, 0)),
                (1, Start(1, 1)),
                (3, End(0)),
                (4, Event(1, 0)),
            ],
        ),
        (1, &[(2, 0, 1)], &[(2, End(1))]),
    ];
    let cases: [Case; 3] = [
        (
            "two ends",
            &[
                (2, Look, OPENING),
                (2, StartRun(0, 0), 0),
                (2, Start(1, 1), 0),
                (3, Look, OPENING),
                (3, End(1), 0),
                (2, Look, OPENING),
                (2, End(0), 0),
                (2, Event(1, 0), 0),
            ],
            &[
                (0, 1, Delivered::Done(Answer::Started), true),
                (1, 1, Delivered::Done(Answer::Started), true),
                (2, 2, Delivered::Done(Answer::Ended), true),
                (3, 3, Delivered::Done(Answer::Ended), true),
                (4, 3, Delivered::Done(Answer::Passed), true),
            ],
            0,
        ),
        (
            "an end of an instance that was stopped",
            &[
                (2, Look, OPENING),
                (2, Stop(0), 0),
                (2, Start(1, 1), 0),
                (2, Look, OPENING),
                (2, End(0), 0),
                (2, Event(1, 0), 0),
            ],
            &[
                (0, 1, Delivered::Racing, true),
                (1, 1, Delivered::Done(Answer::Started), true),
                (3, 3, Delivered::Done(Answer::Ended), true),
                (4, 3, Delivered::Done(Answer::Kept), true),
            ],
            6,
        ),
        (
            "an end of a monitor that is off",
            &[
                (2, Look, OPENING),
                (2, StartRun(0, 0), 0),
                (2, Start(1, 1), 0),
                (3, Look, 2 + MONITORING + REACTING),
                (2, Look, OPENING),
                (2, End(0), 0),
                (2, Event(1, 2), 0),
            ],
            &[
                (0, 1, Delivered::Done(Answer::Started), true),
                (1, 1, Delivered::Done(Answer::Started), true),
                (3, 3, Delivered::Done(Answer::Ended), true),
                (4, 3, Delivered::Done(Answer::Failed(2)), true),
            ],
            1,
        ),
    ];
    check_all(&rt, rt.alloc(), &parts, &cases)?;
    Ok(())
}
