//! A history that has begun, which entries make longer.
ghost use Rattle.std.specs.Prelude.{◌≡◌, ◌↔◌, ◌++◌, ◌∷◌, [], true, false, length, replicate, IfOk, IsTrue};
ghost use Rattle.rv_core.specs.Judged.{JudgesBySpecs};
ghost use Rattle.rv_check.specs.declared.next.Next.TheVariants.{Look};
ghost use Rattle.rv_check.specs.Beginnings.{FitWorks};
ghost use Rattle.rv_check.specs.Run.{RunValue, BeginsRun};
ghost use Rattle.rv_check.specs.inner.Standing.{AllPlayed};

use crate::next::Next;
use crate::script::{after, allows, may_end, watch_all};
use crate::work::work_of;
use rv_core::{Setup, act_on, opening_words, word_index};
use rv_model::{Closed, CpuWork, Entry};
use std::alloc::{AllocError, Global};
use std::marker::Model;

/// Contracts see what it was made with, and its history, which is a beginning.
#[derive(Drop)]
pub struct Run {
    setup: Setup,
    panics: u32,
    works: Vec<CpuWork>,
    /// The switches, and then a word for each slot.
    words: Vec<u64>,
    /// For each work, what its CPU may do next.
    nexts: Vec<Next>,
    history: Closed,
}

impl Model for Run {
    ghost use Rattle.rv_model.specs.contracts.entry.Entry as entry;
    ghost use Rattle.rv_model.specs.contracts.work.CpuWork as work;
    ghost use Rattle.rv_check.specs.Run.{RunValue};
    ghost use Rattle.rv_check.specs.inner.Standing.{coded_run, IsRun};

    ghost Value = { RunValue };

    ghost coded = { coded_run entry.the_row.coded work.the_row.coded };

    ghost view = { λ r. record { setup = r.setup; panics = r.panics; works = r.works.items; history = r.history } };

    ghost invariant = { λ r. IsRun r.setup r.panics r.works.items r.words.items r.nexts.items r.history };
}

/// Each script is at its first turn.
fn first_looks(alloc: Global, works: &[CpuWork]) -> Result<Vec<Next>, AllocError>
    ensures { IfOk result (λ nexts. nexts.items ≡ replicate (length works.now) (Look 0)) }
{
    let mut nexts = Vec::new(alloc);
    for _place in 0..works.len() {
        nexts.push(Next::Look(0))?;
    }
    Ok(nexts)
}

impl Run {
    /// No entry yet.
    pub fn new(
        alloc: Global,
        setup: Setup,
        panics: u32,
        works: Vec<CpuWork>,
    ) -> Result<Run, AllocError>
        requires { FitWorks setup works.items }
        ensures { IfOk result (λ run. run ≡ record { setup = setup; panics = panics; works = works.items; history = [] }) }
    {
        let words = opening_words(alloc, &setup)?;
        let nexts = first_looks(alloc, works.as_slice())?;
        Ok(Run {
            setup,
            panics,
            works,
            words,
            nexts,
            history: Closed::new(),
        })
    }

    /// Its history is a beginning.
    pub fn assert_invariant(&self)
        ensures { BeginsRun self.now self.now.history }
    {
        let _ = &self.words;
    }

    /// Where the tables of its setup mean specifications, these are its judges.
    pub fn judged(&self)
        ensures { JudgesBySpecs self.now.setup }
    {
        let _ = &self.words;
    }

    /// Whether the entry makes it a longer beginning. Where it does, it is added.
    pub fn take(&mut self, entry: &Entry) -> bool
        ensures taken { result ≡ true → self.new ≡ record self.old { history = self.old.history ++ entry.now ∷ [] } }
        ensures kept { result ≡ false → self.new ≡ self.old }
        ensures no { result ≡ false → ¬ BeginsRun self.old (self.old.history ++ entry.now ∷ []) }
    {
        let Some(place) = work_of(self.works.as_slice(), entry.seat) else {
            return false;
        };
        let work = &self.works[place];
        let next = self.nexts[place];
        if !allows(work, &next, &entry.act) {
            return false;
        }
        let at = word_index(&entry.act);
        if entry.before != self.words[at] {
            return false;
        }
        let step = act_on(&self.setup, entry.before, &entry.act);
        if entry.after != step.word {
            return false;
        }
        let then = after(&self.setup, self.panics, work, &next, &step);
        self.words[at] = entry.after;
        watch_all(&mut self.nexts, entry);
        self.nexts[place] = then;
        self.history.push(entry);
        true
    }

    /// Whether each CPU has played its whole script.
    pub fn is_whole(&self) -> bool
        ensures { IsTrue result ↔ AllPlayed self.now }
    {
        for place in 0..self.works.len() {
            let next = self.nexts[place];
            if !may_end(&self.works[place], &next) {
                return false;
            }
        }
        true
    }
}
