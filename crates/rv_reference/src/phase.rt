//! What an instance is doing after a history, with the whole list of letters since its start, and its answers.
ghost use Rattle.std.specs.Prelude.{◌≡◌, ◌∷◌, List, reverse, IfOk};
ghost use Rattle.rv_model.specs.Judging.{Judge, JudgesBySpec};
ghost use Rattle.rv_model.specs.Phases.{rows_of};
ghost use Rattle.rv_reference.specs.Monitors.{table_by};
ghost use Rattle.rv_reference.specs.PlainPhases.{IsRowsOf, IsPhaseOf, IsAnswer};
ghost use Rattle.rv_reference.specs.inner.PlainParts.{IsTurn, IsPhaseAfter};

use crate::levels::{letter_at, with_bit};
use crate::monitor::Monitor;
use rv_model::{Act, Answer, Entry, Letter, Mode};
use std::alloc::{AllocError, Global};

/// What an instance is doing.
#[derive(Drop)]
pub enum Phase {
    Waiting,
    /// It runs, and these letters came since the start.
    Running(Vec<Letter>),
    Stopped,
}

impl Monitor {
    /// The set of the rows below 32 that the letters reach.
    pub fn rows(&self, letters: &[Letter]) -> u32
        ensures { IsRowsOf self.now letters.now result }
    {
        let mut set = 0u32;
        for row in 0..32u32 {
            set = with_bit(set, row, self.reaches(letters, row as usize));
        }
        set
    }

    /// The answer to a letter, and the phase after it.
    fn turn(
        &self,
        alloc: Global,
        phase: Phase,
        mode: Mode,
        letter: Letter,
    ) -> Result<(Answer, Phase), AllocError>
        ensures { IfOk result (λ turn. IsTurn self.now phase mode letter turn.0 turn.1) }
    {
        match phase {
            Phase::Stopped => Ok((Answer::Passed, Phase::Stopped)),
            Phase::Waiting => self.wake(alloc, mode, letter),
            Phase::Running(letters) => self.run(letters, mode, letter),
        }
    }

    /// What a letter does to an instance that waits.
    fn wake(&self, alloc: Global, mode: Mode, letter: Letter) -> Result<(Answer, Phase), AllocError>
        ensures { IfOk result (λ turn. IsTurn self.now Phase.Waiting mode letter turn.0 turn.1) }
    {
        match mode {
            Mode::Event | Mode::End => Ok((Answer::Passed, Phase::Waiting)),
            Mode::Start => Ok((Answer::Started, Phase::Running(Vec::new(alloc)))),
            Mode::StartRun => {
                let mut letters = Vec::new(alloc);
                letters.push(letter)?;
                if self.is_good(letters.as_slice()) {
                    Ok((Answer::Started, Phase::Running(letters)))
                } else {
                    Ok((Answer::Failed(self.rows(&[])), Phase::Waiting))
                }
            }
        }
    }

    /// What a letter does to an instance that runs.
    fn run(
        &self,
        letters: Vec<Letter>,
        mode: Mode,
        letter: Letter,
    ) -> Result<(Answer, Phase), AllocError>
        ensures { IfOk result (λ turn. IsTurn self.now (Phase.Running letters) mode letter turn.0 turn.1) }
    {
        let rows = self.rows(letters.as_slice());
        let mut letters = letters;
        letters.push(letter)?;
        if self.is_good(letters.as_slice()) {
            Ok((Answer::Kept, Phase::Running(letters)))
        } else {
            Ok((Answer::Failed(rows), Phase::Waiting))
        }
    }

    /// The phase of the slot after the entry, whose past is `before`.
    fn phase_after(
        &self,
        alloc: Global,
        before: &[Entry],
        entry: Entry,
        slot: u32,
        phase: Phase,
    ) -> Result<Phase, AllocError>
        ensures { IfOk result (λ after. IsPhaseAfter self.now before.now entry slot phase after) }
    {
        match entry.act {
            Act::Deliver { slot: on, hit } if on == slot => {
                let letter = letter_at(self.start, before, entry, slot, hit.what);
                let turn = self.turn(alloc, phase, hit.mode, letter)?;
                Ok(turn.1)
            }
            Act::Stop { slot: on } if on == slot => Ok(Phase::Stopped),
            Act::Clear { slot: on } | Act::End { slot: on } if on == slot => Ok(Phase::Waiting),
            _ => Ok(phase),
        }
    }

    /// The phase of the slot after the history.
    pub fn phase_of(&self, alloc: Global, history: &[Entry], slot: u32) -> Result<Phase, AllocError>
        ensures { IfOk result (λ phase. IsPhaseOf self.now history.now slot phase) }
    {
        match history {
            [] => Ok(Phase::Waiting),
            [before @ .., entry] => {
                let phase = self.phase_of(alloc, before, slot)?;
                self.phase_after(alloc, before, *entry, slot, phase)
            }
        }
    }

    /// The answer of the entry after this past.
    pub fn answer(
        &self,
        alloc: Global,
        before: &[Entry],
        entry: Entry,
    ) -> Result<Answer, AllocError>
        ensures { IfOk result (λ answer. IsAnswer self.now before.now entry answer) }
    {
        match entry.act {
            Act::Deliver { slot, hit } => {
                let phase = self.phase_of(alloc, before, slot)?;
                let letter = letter_at(self.start, before, entry, slot, hit.what);
                let turn = self.turn(alloc, phase, hit.mode, letter)?;
                Ok(turn.0)
            }
            Act::Stop { slot: _ } => Ok(Answer::Stopped),
            Act::Clear { slot: _ } => Ok(Answer::Cleared),
            Act::End { slot: _ } => Ok(Answer::Ended),
            Act::Look => Ok(Answer::Looked(entry.after)),
            Act::Raise { bits: _ } | Act::Lower { bits: _ } => Ok(Answer::Switched),
        }
    }
}
