//! The machine, which does any act after any others.
ghost use Rattle.std.specs.Prelude.{IfOk, ◌≡◌, ◌≢◌, ◌<◌, [], reverse, sum};
ghost use Rattle.rv_model.specs.Histories.{Replays};
ghost use Rattle.rv_model.specs.Phases.{level, letter_at, rows_of, stopped};
ghost use Rattle.rv_model.specs.declared.entry.Act.TheVariants.{Deliver};
ghost use Rattle.rv_model.specs.Setups.{judge_of, monitor_of, start_of};
ghost use Rattle.rv_core.specs.RowPhases.{phase_at, row_phase};
ghost use Rattle.rv_core.specs.Setup.{FitsAct, IsSetup, judges_of};
ghost use Rattle.rv_core.specs.Core.{Steps, CoreValue, IsCore};
ghost use Rattle.rv_core.specs.Judged.{JudgesBySpecs};

use crate::act::{act_on, deliver_on, word_index};
use crate::phase::{RowPhase, phase_in};
use crate::setup::Setup;
use crate::turn::letter_by;
use rv_model::{Act, Answer, Closed, Entry, Hit, Keeps, Letter, What};
use rv_slots::Shape;
use rv_word::atoms_of;
use std::alloc::{AllocError, Global};
use std::marker::Model;

/// Contracts see its setup and its history.
#[derive(Drop)]
pub struct Core {
    setup: Setup,
    /// The switches, and then a word for each slot.
    words: Vec<u64>,
    history: Closed,
}

impl Model for Core {
    ghost use Rattle.rv_model.specs.contracts.entry.Entry as entry;
    ghost use Rattle.rv_core.specs.Core.{CoreValue, coded_core, IsCore};

    ghost Value = { CoreValue };

    ghost coded = { coded_core entry.the_row.coded };

    ghost view = { λ c. record { setup = c.setup; history = c.history } };

    ghost invariant = { λ c. IsCore c.setup c.words.items c.history };
}

impl Keeps<Entry> for Core {
    ghost list = { λ c. c.history };
}

/// The switches, and then each slot's opening word.
pub fn opening_words(alloc: Global, setup: &Setup) -> Result<Vec<u64>, AllocError>
    ensures { IfOk result (λ words. IsCore setup.now words.items []) }
{
    setup.assert_invariant();
    let slots = setup.shape.slots();
    let mut words = Vec::new(alloc);
    words.push(setup.switches)?;
    for slot in 0..slots {
        words.push(setup.opening(slot))?;
    }
    Ok(words)
}

impl Core {
    /// Every slot waits, and the history is empty.
    pub fn new(alloc: Global, setup: Setup) -> Result<Core, AllocError>
        ensures { IfOk result (λ core. core ≡ record { setup = setup; history = [] }) }
    {
        let words = opening_words(alloc, &setup)?;
        Ok(Core {
            setup,
            words,
            history: Closed::new(),
        })
    }

    /// What is known of every machine. Where its tables mean specifications, the specifications are its judges.
    pub fn assert_invariant(&self)
        ensures setup { IsSetup self.now.setup }
        ensures replays { Replays self.now.setup (judges_of self.now.setup) self.now.history }
        ensures judges { JudgesBySpecs self.now.setup }
    {
        let _ = &self.words;
    }

    /// The shape of its setup.
    pub fn shape(&self) -> &Shape
        ensures { result.now ≡ self.now.setup.shape }
    {
        &self.setup.shape
    }

    /// What the slot's instance is doing.
    #[inline(always)]
    pub fn phase(&self, slot: u32) -> RowPhase
        requires { slot < sum self.now.setup.shape }
        ensures { result ≡ row_phase (judge_of self.now.setup (judges_of self.now.setup) slot) (phase_at self.now slot) }
    {
        phase_in(self.words[slot as usize + 1])
    }

    /// The letter of a hit, by the slot's levels as they are. A stopped instance has none.
    #[inline(always)]
    pub fn letter(&self, slot: u32, what: &What) -> Letter
        requires { slot < sum self.now.setup.shape }
        ensures { phase_at self.now slot ≢ stopped → result ≡ letter_at (level (start_of self.now.setup slot) (reverse self.now.history) slot) what.now }
    {
        letter_by(what, atoms_of(self.words[slot as usize + 1]))
    }

    /// The rows of no letters, from which the slot's first letter is judged.
    pub fn start(&self, slot: u32) -> u32
        requires { slot < sum self.now.setup.shape }
        ensures { result ≡ rows_of (judge_of self.now.setup (judges_of self.now.setup) slot) [] }
    {
        self.setup.table(slot).start()
    }

    /// Does the act, whatever acts came before, and adds its entry to the history.
    #[inline(always)]
    pub fn step(&mut self, seat: u32, act: &Act) -> Answer
        requires { FitsAct self.old.setup act.now }
        ensures { Steps self.old self.new seat act.now result }
    {
        let place = word_index(act);
        let before = self.words[place];
        let step = act_on(&self.setup, before, act);
        self.words[place] = step.word;
        let entry = Entry {
            seat,
            act: *act,
            before,
            after: step.word,
        };
        self.history.push(&entry);
        step.answer
    }

    /// Delivers to a slot of this monitor, as `step` does, which has to look for the monitor.
    #[inline(always)]
    pub fn deliver(&mut self, seat: u32, monitor: u8, slot: u32, hit: &Hit) -> Answer
        requires fits { FitsAct self.old.setup (Deliver slot hit.now) }
        requires monitor { monitor ≡ monitor_of self.old.setup.shape slot }
        ensures { Steps self.old self.new seat (Deliver slot hit.now) result }
    {
        let place = slot as usize + 1;
        let before = self.words[place];
        let delivered = deliver_on(&self.setup, monitor, slot, before, hit);
        self.words[place] = delivered.word;
        let entry = Entry {
            seat,
            act: Act::Deliver { slot, hit: *hit },
            before,
            after: delivered.word,
        };
        self.history.push(&entry);
        delivered.answer
    }

    /// The history.
    pub fn close(self) -> Closed
        ensures { result ≡ self.history }
    {
        Closed::of(&self)
    }

    /// What it began with, and the history.
    pub fn into_parts(self) -> (Setup, Closed)
        ensures setup { result.0 ≡ self.setup }
        ensures history { result.1 ≡ self.history }
    {
        let Core { setup, history, .. } = self;
        (setup, history)
    }
}
