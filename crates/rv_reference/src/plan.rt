//! What a run begins with, and the words and answers of a whole history.
ghost use Rattle.std.specs.Prelude.{◌≡◌, ◌↔◌, ◌<◌, ◌≤◌, List, length, map, reverse, All, IfOk, IsTrue};
ghost use Rattle.rv_model.specs.Judging.{Judge, JudgesBySpec};
ghost use Rattle.rv_model.specs.Setups.{monitor_of, judge_of, start_of};
ghost use Rattle.rv_model.specs.SharedWords.{word_of, word_on, answer_at};
ghost use Rattle.rv_reference.specs.Monitors.{table_by};
ghost use Rattle.rv_reference.specs.inner.PlainParts.{IsPacked};
ghost use Rattle.rv_reference.specs.Plans.{setup_of, ByJudges, HasSlot, HasSlotOf, slots_in};

use crate::levels::levels_of;
use crate::monitor::Monitor;
use crate::phase::Phase;
use crate::switches::switches_of;
use rv_model::{Act, Answer, Entry};
use std::alloc::{AllocError, Global};

/// The monitors, whose instances have their slots in this order, and the opening switches.
#[derive(Drop)]
pub struct Plan {
    pub monitors: Vec<Monitor>,
    pub switches: u64,
}

impl Monitor {
    /// The word of a phase and levels.
    fn packed(&self, levels: u32, phase: &Phase) -> u64
        ensures { IsPacked self.now levels phase.now result }
    {
        match phase {
            Phase::Waiting => (1 << 32) + levels as u64,
            Phase::Running(letters) => ((self.rows(letters.as_slice()) as u64) << 32)
                + levels as u64,
            Phase::Stopped => 0,
        }
    }
}

/// The number of the slot's monitor.
fn monitor_of(monitors: &[Monitor], slot: u32) -> usize
    ensures is { result ≡ monitor_of (map slots_in monitors.now) slot }
    ensures bound { result ≤ length monitors.now }
{
    match monitors {
        [] => 0,
        [first, rest @ ..] => {
            if slot < first.slots {
                0
            } else {
                1 + monitor_of(rest, slot - first.slots)
            }
        }
    }
}

impl Plan {
    /// Whether the slot is one of a monitor.
    pub fn has_slot(&self, slot: u32) -> bool
        ensures { IsTrue result ↔ HasSlot self.now slot }
    {
        monitor_of(self.monitors.as_slice(), slot) < self.monitors.len()
    }

    /// Whether the slot that the act is on is one of a monitor.
    pub fn has_slot_of(&self, act: Act) -> bool
        ensures { IsTrue result ↔ HasSlotOf self.now act }
    {
        match act {
            Act::Deliver { slot, hit: _ }
            | Act::Stop { slot }
            | Act::Clear { slot }
            | Act::End { slot } => self.has_slot(slot),
            Act::Look | Act::Raise { bits: _ } | Act::Lower { bits: _ } => true,
        }
    }

    fn monitor(&self, slot: u32) -> &Monitor
        requires { HasSlot self.now slot }
        ensures judged { ByJudges self.now (λ js. JudgesBySpec result.now.spec (table_by result.now) (judge_of (setup_of self.now) js slot)) }
        ensures started { start_of (setup_of self.now) slot ≡ result.now.start }
    {
        &self.monitors[monitor_of(self.monitors.as_slice(), slot)]
    }

    /// The word of the slot after the history.
    pub fn word_of(&self, alloc: Global, history: &[Entry], slot: u32) -> Result<u64, AllocError>
        requires { HasSlot self.now slot }
        ensures { IfOk result (λ word. ByJudges self.now (λ js. word ≡ word_of (setup_of self.now) js (reverse history.now) slot)) }
    {
        let monitor = self.monitor(slot);
        let phase = monitor.phase_of(alloc, history, slot)?;
        Ok(monitor.packed(levels_of(monitor.start, history, slot), &phase))
    }

    /// The word that the act is on, after the history.
    pub fn word_on(&self, alloc: Global, history: &[Entry], act: Act) -> Result<u64, AllocError>
        requires { HasSlotOf self.now act }
        ensures { IfOk result (λ word. ByJudges self.now (λ js. word ≡ word_on (setup_of self.now) js (reverse history.now) act)) }
    {
        match act {
            Act::Deliver { slot, hit: _ }
            | Act::Stop { slot }
            | Act::Clear { slot }
            | Act::End { slot } => self.word_of(alloc, history, slot),
            Act::Look | Act::Raise { bits: _ } | Act::Lower { bits: _ } => Ok(switches_of(
                self.switches,
                history,
            )),
        }
    }

    /// The answer of the entry after this past.
    pub fn answer_at(
        &self,
        alloc: Global,
        before: &[Entry],
        entry: Entry,
    ) -> Result<Answer, AllocError>
        requires { HasSlotOf self.now entry.act }
        ensures { IfOk result (λ answer. ByJudges self.now (λ js. answer ≡ answer_at (setup_of self.now) js (reverse before.now) entry entry.act)) }
    {
        match entry.act {
            Act::Deliver { slot, hit: _ } => self.monitor(slot).answer(alloc, before, entry),
            Act::Stop { slot: _ } => Ok(Answer::Stopped),
            Act::Clear { slot: _ } => Ok(Answer::Cleared),
            Act::End { slot: _ } => Ok(Answer::Ended),
            Act::Look => Ok(Answer::Looked(entry.after)),
            Act::Raise { bits: _ } | Act::Lower { bits: _ } => Ok(Answer::Switched),
        }
    }
}
