//! What the deliveries of one monitor have reached.
ghost use Rattle.std.specs.Prelude.{◌≡◌, ◌<◌, IfOk, OnOk, count_by, sum};
ghost use Rattle.rv_reach.specs.Counts.{atom_count, edges_of};
ghost use Rattle.rv_reach.specs.Reached.{is_passed};
ghost use Rattle.rv_reach.specs.inner.Counters.{CountsAnswer, EndsInstance, IsMarked, IsUnreached, JudgesLetter, PassesDelivery, ReachesRecord};

use crate::counters::{count_bits, count_edges, more};
use crate::judged::{Judged, atoms_in, is_kept, is_started, judged_of, rows_behind, runs_behind};
use rv_core::{Core, RowPhase};
use rv_model::{Answer, Delivered, Edge, Record, Spec, fails};
use std::alloc::{AllocError, Global};

/// What an instance has come to: whether a letter was judged on it, whether it has failed, and whether it runs.
#[derive(Clone, Copy, Drop)]
pub struct InstanceReach {
    pub started: bool,
    pub failed: bool,
    pub running: bool,
}

/// How many deliveries of the monitor have each answer, how often each row and edge was reached, and in how many letters
/// each atom is true.
#[derive(Drop)]
pub struct MonitorReach {
    pub passed: u64,
    pub started: u64,
    pub kept: u64,
    pub failed: u64,
    pub ended: u64,
    pub letters: u64,
    pub instances: Vec<InstanceReach>,
    /// Row k + 1 at index k.
    pub rows: Vec<u64>,
    /// In the order of the automaton. A rule has none.
    pub edges: Vec<u64>,
    /// In the order of the rule. An automaton has none.
    pub atoms: Vec<u64>,
}

/// The edges of a specification.
#[inline(always)]
fn edges_of(spec: &Spec) -> &[Edge]
    ensures { result.now ≡ edges_of spec.now }
{
    match spec {
        Spec::Da(automaton) => automaton.edges.as_slice(),
        Spec::Ltl(_) => &[],
    }
}

/// How many atoms it has. An automaton has none.
fn atom_count(spec: &Spec) -> usize
    ensures { result ≡ atom_count spec.now }
{
    match spec {
        Spec::Da(_) => 0,
        Spec::Ltl(rule) => rule.atoms.len(),
    }
}

#[inline(always)]
fn is_passed(answer: Answer) -> bool
    ensures { result ≡ is_passed answer }
{
    matches!(answer, Answer::Passed)
}

/// Marks the instance on which a letter was judged, where there is such a one.
#[inline(always)]
fn mark(instances: &mut Vec<InstanceReach>, judged: &Judged)
    ensures { IsMarked judged.now instances.old.items instances.new.items }
{
    let place = judged.instance as usize;
    if place < instances.len() {
        let was = instances[place];
        instances[place] = InstanceReach {
            started: true,
            failed: was.failed || fails(judged.answer),
            running: runs_behind(judged.after),
        };
    }
}

impl MonitorReach {
    /// What no delivery reaches, of a monitor with so many instances and rows.
    pub(crate) fn new(
        alloc: Global,
        instances: usize,
        rows: usize,
        spec: &Spec,
    ) -> Result<MonitorReach, AllocError>
        ensures { IfOk result (IsUnreached instances rows spec.now) }
    {
        let unseen = InstanceReach {
            started: false,
            failed: false,
            running: false,
        };
        Ok(MonitorReach {
            passed: 0,
            started: 0,
            kept: 0,
            failed: 0,
            ended: 0,
            letters: 0,
            instances: vec![in alloc; unseen; instances]?,
            rows: vec![in alloc; 0; rows]?,
            edges: vec![in alloc; 0; edges_of(spec).len()]?,
            atoms: vec![in alloc; 0; atom_count(spec)]?,
        })
    }

    /// How many instances were started.
    pub fn instances_started(&self) -> usize
        ensures { result ≡ count_by (λ i. i.started) self.now.instances.items }
    {
        self.instances.iter().filter(|i| i.started).count()
    }

    /// How many instances have failed.
    pub fn instances_failed(&self) -> usize
        ensures { result ≡ count_by (λ i. i.failed) self.now.instances.items }
    {
        self.instances.iter().filter(|i| i.failed).count()
    }

    /// How many instances run.
    pub fn instances_running(&self) -> usize
        ensures { result ≡ count_by (λ i. i.running) self.now.instances.items }
    {
        self.instances.iter().filter(|i| i.running).count()
    }

    /// The record of one delivery more, on the machine that has made it.
    #[inline(always)]
    pub(crate) fn add(
        &mut self,
        spec: &Spec,
        core: &Core,
        slot: u32,
        before: RowPhase,
        made: &Record,
    ) -> Result<(), AllocError>
        requires { slot < sum core.now.setup.shape }
        ensures { OnOk result (ReachesRecord spec.now core.now slot before made.now self.old self.new) }
    {
        if made.hit.mode.is_end() {
            return self.end(made.instance);
        }
        match made.outcome {
            Delivered::Done(answer) => {
                if is_passed(answer) {
                    return self.pass();
                }
                let judged = judged_of(core, slot, before, made, answer);
                self.judge(edges_of(spec), &judged)
            }
            Delivered::Racing => Ok(()),
        }
    }

    /// An instance ends.
    fn end(&mut self, instance: u32) -> Result<(), AllocError>
        ensures { OnOk result (EndsInstance instance self.old self.new) }
    {
        self.ended = more(self.ended, true)?;
        let place = instance as usize;
        if place < self.instances.len() {
            let was = self.instances[place];
            self.instances[place] = InstanceReach {
                started: was.started,
                failed: was.failed,
                running: false,
            };
        }
        Ok(())
    }

    /// A delivery is passed over.
    #[inline(always)]
    fn pass(&mut self) -> Result<(), AllocError>
        ensures { OnOk result (PassesDelivery self.old self.new) }
    {
        self.passed = more(self.passed, true)?;
        Ok(())
    }

    /// A letter has this answer.
    #[inline(always)]
    fn answer(&mut self, answer: Answer) -> Result<(), AllocError>
        ensures { OnOk result (CountsAnswer answer self.old self.new) }
    {
        self.letters = more(self.letters, true)?;
        if is_kept(answer) {
            self.kept = more(self.kept, true)?;
            return Ok(());
        }
        if is_started(answer) {
            self.started = more(self.started, true)?;
            return Ok(());
        }
        self.failed = more(self.failed, fails(answer))?;
        Ok(())
    }

    /// A letter is judged.
    #[inline(always)]
    fn judge(&mut self, edges: &[Edge], judged: &Judged) -> Result<(), AllocError>
        ensures { OnOk result (JudgesLetter edges.now judged.now self.old self.new) }
    {
        self.answer(judged.answer)?;
        count_edges(&mut self.edges, edges, judged)?;
        mark(&mut self.instances, judged);
        count_bits(&mut self.rows, rows_behind(judged.after), 1)?;
        count_bits(&mut self.atoms, atoms_in(judged.letter), 0)
    }
}
