//! The checker of a journal, which is given line by line.
ghost use Rattle.std.specs.Prelude.{◌≡◌, ◌↔◌, ◌++◌, ◌∷◌, [], List, ℕ, IfOk, IsTrue};
ghost use Rattle.rv_model.specs.declared.formula.Spec.{Spec};
ghost use Rattle.rv_core.specs.Judged.{JudgesBySpecs};
ghost use Rattle.rv_check.specs.Beginnings.{FitWorks};
ghost use Rattle.rv_check.specs.Checker.{CheckerValue, IsBegun, IsWhole, IsChecker};

use crate::given::{Given, push};
use crate::run::Run;
use rv_core::Setup;
use rv_journal::read_entry;
use rv_model::CpuWork;
use std::alloc::{AllocError, Global};
use std::marker::Model;

/// Contracts see what it was made with, and the lines that it was given.
#[derive(Drop)]
pub struct Checker {
    /// The lines' history, as long as it has begun.
    run: Run,
    /// Whether it has begun.
    good: bool,
    given: Given,
}

impl Model for Checker {
    ghost use Rattle.rv_model.specs.contracts.work.CpuWork as work;
    ghost use Rattle.rv_check.specs.Checker.{CheckerValue, coded_checker, IsChecker};

    ghost Value = { CheckerValue };

    ghost coded = { coded_checker work.the_row.coded };

    ghost view = { λ c. record { setup = c.run.setup; panics = c.run.panics; works = c.run.works; lines = c.given } };

    ghost invariant = { λ c. IsChecker c.run c.good c.given };
}

/// Whether the lines are those of a history that has begun, with this line behind them.
fn judge(run: &mut Run, good: bool, line: &[u8]) -> bool
    ensures judged { (lines : List (List ℕ)) → IsChecker run.old good lines → IsChecker run.new result (lines ++ line.now ∷ []) }
    ensures kept { run.new ≡ record run.old { history = run.new.history } }
{
    if !good {
        return false;
    }
    match read_entry(line) {
        None => false,
        Some(entry) => {
            let taken = run.take(&entry);
            run.assert_invariant();
            taken
        }
    }
}

impl Checker {
    /// No line yet. The bits of `panics` name the monitors whose reactor is panic.
    pub fn new(
        alloc: Global,
        setup: Setup,
        panics: u32,
        works: Vec<CpuWork>,
    ) -> Result<Checker, AllocError>
        requires { FitWorks setup works.items }
        ensures { IfOk result (λ checker. checker ≡ record { setup = setup; panics = panics; works = works.items; lines = [] }) }
    {
        let run = Run::new(alloc, setup, panics, works)?;
        run.assert_invariant();
        let given = Given::new();
        Ok(Checker {
            run,
            good: true,
            given,
        })
    }

    /// Where the tables of its setup mean specifications, these are its judges.
    pub fn assert_invariant(&self)
        ensures { JudgesBySpecs self.now.setup }
    {
        self.run.judged();
    }

    /// Before the first line it had begun.
    pub fn begins(&self)
        ensures { IsBegun (record self.now { lines = [] }) }
    {
        self.run.assert_invariant();
    }

    /// The next line, which is given without its line end: whether the lines so far are those of a history that has begun.
    pub fn line(&mut self, line: &[u8]) -> bool
        ensures lines { self.new ≡ record self.old { lines = self.old.lines ++ line.now ∷ [] } }
        ensures begun { IsTrue result ↔ IsBegun self.new }
        ensures front { IsBegun self.new → IsBegun self.old }
    {
        let good = judge(&mut self.run, self.good, line);
        self.good = good;
        push(&mut self.given, line);
        good
    }

    /// Whether the lines so far are those of a legal history.
    pub fn whole(&self) -> bool
        ensures { (specs : List Spec) → IsTrue result ↔ IsWhole self.now specs }
    {
        self.good && self.run.is_whole()
    }
}
