//! What the tests share: formulas from their text, steps of a history, and the check of each step.
use rv_gen::{wip, wwnr};
use rv_model::{Act, Answer, Automaton, Entry, Formula, Hit, Mode, Spec, What};
use rv_reference::worked::{has_atoms_below, rule};
use rv_reference::{Monitor, Node, Plan};
use std::alloc::{AllocError, Global};
use std::process::Abort;

/// Waiting, with all levels off.
pub const WAITS: u64 = 1 << 32;
/// In row 1, 2 and 3 alone, with all levels off.
pub const ROW_1: u64 = 1 << 33;

pub const ROW_2: u64 = 1 << 34;

pub const ROW_3: u64 = 1 << 35;

/// An act, with no more than a test wants to say.
#[derive(Clone, Copy, Drop)]
pub enum Does {
    /// An automaton's event, on a slot.
    Event(u32, u8),
    Start(u32, u8),
    StartRun(u32, u8),
    /// An event of a rule: levels on, levels off, pulses.
    Atoms(u32, u32, u32),
    /// The same, which begins a run.
    RunAtoms(u32, u32, u32),
    Stop(u32),
    Clear(u32),
    End(u32),
    Look,
    Raise(u64),
    Lower(u64),
}

/// A seat, what it does, the word that it leaves behind, and its answer.
pub type GivenStep = (u32, Does, u64, Answer);

/// The act in full.
pub fn act_of(does: Does) -> Act {
    match does {
        Does::Event(slot, event) => deliver(slot, Mode::Event, What::Da { event }),
        Does::Start(slot, event) => deliver(slot, Mode::Start, What::Da { event }),
        Does::StartRun(slot, event) => deliver(slot, Mode::StartRun, What::Da { event }),
        Does::Atoms(on, off, pulse) => deliver(0, Mode::Event, What::Ltl { on, off, pulse }),
        Does::RunAtoms(on, off, pulse) => deliver(0, Mode::StartRun, What::Ltl { on, off, pulse }),
        Does::Stop(slot) => Act::Stop { slot },
        Does::Clear(slot) => Act::Clear { slot },
        Does::End(slot) => Act::End { slot },
        Does::Look => Act::Look,
        Does::Raise(bits) => Act::Raise { bits },
        Does::Lower(bits) => Act::Lower { bits },
    }
}

fn deliver(slot: u32, mode: Mode, what: What) -> Act {
    Act::Deliver {
        slot,
        hit: Hit { mode, what },
    }
}

/// Whether each step of the history has its answer, and leaves its word.
fn agrees(
    rt: &impl Abort,
    alloc: Global,
    plan: &Plan,
    steps: &[GivenStep],
) -> Result<bool, AllocError> {
    let mut history: Vec<Entry> = Vec::new(alloc);
    for (seat, does, wanted_word, wanted) in steps {
        let act = act_of(*does);
        assert!(rt; plan.has_slot_of(act));
        let before = plan.word_on(alloc, history.as_slice(), act)?;
        let entry = Entry {
            seat: *seat,
            act,
            before,
            after: *wanted_word,
        };
        let answer = plan.answer_at(alloc, history.as_slice(), entry)?;
        history.push(entry)?;
        let after = plan.word_on(alloc, history.as_slice(), act)?;
        if answer != *wanted || after != *wanted_word {
            return Ok(false);
        }
    }
    Ok(true)
}

/// Each history is as its steps say.
pub fn check_all(
    rt: &impl Abort,
    alloc: Global,
    plan: &Plan,
    cases: &[(&str, &[GivenStep])],
) -> Result<(), AllocError> {
    for (name, steps) in cases {
        assert!(rt; agrees(rt, alloc, plan, steps)?, "at {name}");
    }
    Ok(())
}

/// A monitor of an automaton, with so many instances.
fn of_automaton(alloc: Global, automaton: Automaton, slots: u32) -> Monitor {
    Monitor {
        spec: Spec::Da(automaton),
        nodes: Vec::new(alloc),
        start: 0,
        slots,
    }
}

/// A plan of two instances of wip and one of wwnr, with both enabled, monitoring and reacting on.
pub fn two_automata(alloc: Global) -> Result<Plan, AllocError> {
    let mut monitors = Vec::new(alloc);
    monitors.push(of_automaton(alloc, wip(alloc)?, 2))?;
    monitors.push(of_automaton(alloc, wwnr(alloc)?, 1))?;
    Ok(Plan {
        monitors,
        switches: OPENING,
    })
}

/// Two monitors are enabled, and monitoring and reacting are on.
pub const OPENING: u64 = 3 + (3 << 32);

/// A plan of one instance of a rule.
pub fn one_rule(
    rt: &impl Abort,
    alloc: Global,
    text: &str,
    nodes: Vec<Node>,
    start: u32,
) -> Result<Plan, AllocError> {
    let formula = formula(rt, alloc, text)?;
    assert!(rt; has_atoms_below(26, &formula), "{text}");
    let rule = rule(alloc, 26, formula)?;
    let mut monitors = Vec::new(alloc);
    monitors.push(Monitor {
        spec: Spec::Ltl(rule),
        nodes,
        start,
        slots: 1,
    })?;
    Ok(Plan {
        monitors,
        switches: OPENING,
    })
}

/// Rows of a table, each with its labels and its set of next rows.
pub fn rows(
    rt: &impl Abort,
    alloc: Global,
    list: &[(&[&str], u32)],
) -> Result<Vec<Node>, AllocError> {
    let mut nodes = Vec::new(alloc);
    for (texts, next) in list {
        let mut labels = Vec::new(alloc);
        for text in *texts {
            labels.push(formula(rt, alloc, text)?)?;
        }
        nodes.push(Node {
            labels,
            next: *next,
        })?;
    }
    Ok(nodes)
}

/// The formula of a text in which an operator follows its operands: atoms `A` and so on, `1` and `0` for the constants,
/// `!` not, `n` next, `a` always, `e` eventually, `&` and, `|` or, `>` imply, `=` equivalent, `u` until,
/// `r` release, `w` weak until.
pub fn formula(rt: &impl Abort, alloc: Global, text: &str) -> Result<Formula, AllocError> {
    let mut stack: Vec<Formula> = Vec::new(alloc);
    for byte in text.as_bytes() {
        let byte = *byte;
        let made = match byte {
            b'A'..=b'Z' => Formula::Atom(byte - 65),
            b'1' => Formula::True,
            b'0' => Formula::False,
            b'!' | b'n' | b'a' | b'e' => {
                let operand = stack.pop().expect(rt, "an operand");
                unary(alloc, byte, operand)?
            }
            _ => {
                let right = stack.pop().expect(rt, "a right operand");
                let left = stack.pop().expect(rt, "a left operand");
                binary(alloc, byte, left, right)?
            }
        };
        stack.push(made)?;
    }
    Ok(stack.pop().expect(rt, "a formula"))
}

fn unary(alloc: Global, byte: u8, operand: Formula) -> Result<Formula, AllocError> {
    let operand = Box::new(alloc, operand)?;
    Ok(match byte {
        b'!' => Formula::Not(operand),
        b'n' => Formula::Next(operand),
        b'a' => Formula::Always(operand),
        _ => Formula::Eventually(operand),
    })
}

fn binary(alloc: Global, byte: u8, left: Formula, right: Formula) -> Result<Formula, AllocError> {
    let left = Box::new(alloc, left)?;
    let right = Box::new(alloc, right)?;
    Ok(match byte {
        b'&' => Formula::And(left, right),
        b'|' => Formula::Or(left, right),
        b'>' => Formula::Imply(left, right),
        b'=' => Formula::Equivalent(left, right),
        b'r' => Formula::Release(left, right),
        b'w' => Formula::WeakUntil(left, right),
        _ => Formula::Until(left, right),
    })
}
