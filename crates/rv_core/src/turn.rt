//! One letter on a set of rows, and what a hit makes of levels.
ghost use Rattle.std.specs.Prelude.{◌≡◌};
ghost use Rattle.rv_model.specs.declared.entry.Answer.TheVariants.{Failed};
ghost use Rattle.rv_core.specs.Advance.{LevelsFit, PulseFits, levels_after, letter_by, from_waiting, set_turn};

use rv_model::{Answer, Letter, Mode, What};
use rv_table::Table;

/// The set of what waits.
const ROW_ZERO: u32 = 1;

/// The rows after a letter, and the answer.
#[derive(Clone, Copy, Drop)]
pub struct Turned {
    pub set: u32,
    pub answer: Answer,
}

/// What was not allowed at these rows waits again.
fn failed(rows: u32) -> Turned
    ensures answer { result.answer ≡ Failed rows }
    ensures set { result.set ≡ 1 }
{
    Turned {
        set: ROW_ZERO,
        answer: Answer::Failed(rows),
    }
}

/// Of an instance that waits.
#[inline(always)]
fn from_waiting(table: &Table, mode: Mode, letter: Letter) -> Turned
    ensures answer { result.answer ≡ (from_waiting table.now mode letter).0 }
    ensures set { result.set ≡ (from_waiting table.now mode letter).1 }
{
    let start = table.start();
    match mode {
        Mode::Event | Mode::End => Turned {
            set: ROW_ZERO,
            answer: Answer::Passed,
        },
        Mode::Start => Turned {
            set: start,
            answer: Answer::Started,
        },
        Mode::StartRun => {
            let next = table.step(start, letter);
            if next == 0 {
                failed(start)
            } else {
                Turned {
                    set: next,
                    answer: Answer::Started,
                }
            }
        }
    }
}

/// Of an instance that is not stopped.
#[inline(always)]
pub fn turn(table: &Table, set: u32, mode: Mode, letter: Letter) -> Turned
    ensures answer { result.answer ≡ (set_turn table.now set mode letter).0 }
    ensures set { result.set ≡ (set_turn table.now set mode letter).1 }
{
    if set == ROW_ZERO {
        return from_waiting(table, mode, letter);
    }
    let next = table.step(set, letter);
    if next == 0 {
        failed(set)
    } else {
        Turned {
            set: next,
            answer: Answer::Kept,
        }
    }
}

/// The levels with a hit.
pub fn levels_after(what: &What, levels: u32) -> u32
    ensures levels { result ≡ levels_after what.now levels }
    ensures fits { LevelsFit what.now }
{
    match *what {
        What::Da { .. } | What::Nothing => levels,
        What::Ltl { on, off, .. } => levels & !off | on,
    }
}

/// The letter of a hit, by the levels with it. A pulse is in no levels, and an end has no letter.
pub fn letter_by(what: &What, levels: u32) -> Letter
    ensures letter { result ≡ letter_by what.now levels }
    ensures fits { PulseFits what.now }
{
    match *what {
        What::Da { event } => Letter::Event(event),
        What::Nothing => Letter::Atoms(0),
        What::Ltl { pulse, .. } => Letter::Atoms(levels | pulse),
    }
}
