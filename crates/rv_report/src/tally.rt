//! What the records of one monitor come to.
ghost use Rattle.std.specs.Prelude.{◌≡◌, ◌+◌, ◌<◌, ◌==◌, ◌||◌, ℕ, List, [], ◌∷◌, ◌++◌, false, length, count_by, IfOk, OnOk, slice_index_or, if◌then◌else◌};
ghost use Rattle.rv_model.specs.declared.record.Record.{Record};
ghost use Rattle.rv_model.specs.declared.record.Task.{Task};
ghost use Rattle.rv_model.specs.Records.{is_failure, is_stopped, is_ended};
ghost use Rattle.rv_model.specs.Reports.{Reported, instances_in};
ghost use Rattle.rv_report.specs.Summary.{IsSummary};
ghost use Rattle.rv_report.specs.Tallies.{IsTally, IsWholeTally, tally_value};

use crate::summary::Summary;
use rv_model::{Answer, Delivered, Record};
use std::alloc::{AllocError, Global};

/// Which instances of a monitor have a record, how many records it has, and how many of each kind that the summary tells apart.
#[derive(Drop)]
pub(crate) struct Tally {
    pub seen: Vec<bool>,
    pub deliveries: u64,
    pub failures: u64,
    pub stopped: u64,
}

pub(crate) fn is_failure(made: &Record) -> bool
    ensures { result ≡ is_failure made.now }
{
    matches!(made.outcome, Delivered::Done(Answer::Failed(_)))
}

fn is_stopped(made: &Record) -> bool
    ensures { result ≡ is_stopped made.now }
{
    matches!(made.outcome, Delivered::Racing)
}

fn is_ended(made: &Record) -> bool
    ensures { result ≡ is_ended made.now }
{
    matches!(made.outcome, Delivered::Done(Answer::Ended))
}

/// Both. More than fit would be more records than there is memory for.
fn sum(count: u64, more: u64) -> Result<u64, AllocError>
    ensures { IfOk result (λ n. n ≡ count + more) }
{
    count.checked_add(more).ok_or(AllocError)
}

/// One more where it counts.
fn more(count: u64, counts: bool) -> Result<u64, AllocError>
    ensures { IfOk result (λ n. n ≡ count + (if counts then 1 else 0)) }
{
    sum(count, u64::from(counts))
}

/// Marks the instance, where there is such a one.
fn mark(seen: &mut Vec<bool>, instance: usize)
    ensures many { length seen.new.items ≡ length seen.old.items }
    ensures marked { (k : ℕ) → k < length seen.old.items → slice_index_or seen.new.items k false ≡ (slice_index_or seen.old.items k false || (instance == k)) }
{
    if instance < seen.len() {
        seen[instance] = true;
    }
}

/// Marks the instances that the others mark, where there are such.
fn mark_all(seen: &mut Vec<bool>, others: &[bool])
    ensures many { length seen.new.items ≡ length seen.old.items }
    ensures marked { (k : ℕ) → k < length seen.old.items → slice_index_or seen.new.items k false ≡ (slice_index_or seen.old.items k false || slice_index_or others.now k false) }
{
    for place in 0..others.len() {
        if others[place] {
            mark(seen, place);
        }
    }
}

/// There is room for a mark of the instance.
fn reach(seen: &mut Vec<bool>, instance: usize) -> Result<(), AllocError>
    ensures many { OnOk result (instance < length seen.new.items) }
    ensures same { OnOk result ((k : ℕ) → slice_index_or seen.new.items k false ≡ slice_index_or seen.old.items k false) }
{
    while seen.len() <= instance {
        seen.push(false)?;
    }
    Ok(())
}

impl Tally {
    /// The tally of no records.
    pub(crate) fn new(alloc: Global, instances: usize) -> Result<Tally, AllocError>
        ensures { IfOk result (λ t. (monitor : ℕ) → IsTally monitor instances [] t) }
    {
        let seen = vec![in alloc; false; instances]?;
        Ok(Tally {
            seen,
            deliveries: 0,
            failures: 0,
            stopped: 0,
        })
    }

    /// Counts a record of the monitor. An end is not counted.
    #[inline(always)]
    pub(crate) fn add(&mut self, made: &Record) -> Result<(), AllocError>
        ensures { OnOk result ((instances : ℕ) (rs : List Record) → IsTally made.now.monitor instances rs self.old → IsTally made.now.monitor instances (rs ++ made.now ∷ []) self.new) }
    {
        if is_ended(made) {
            return Ok(());
        }
        mark(&mut self.seen, made.instance as usize);
        self.deliveries = more(self.deliveries, true)?;
        self.failures = more(self.failures, is_failure(made))?;
        self.stopped = more(self.stopped, is_stopped(made))?;
        Ok(())
    }

    /// Counts a record of the monitor, whatever its instance.
    #[inline(always)]
    pub(crate) fn add_any(&mut self, made: &Record) -> Result<(), AllocError>
        ensures { OnOk result ((rs : List Record) → IsWholeTally made.now.monitor rs (tally_value self.old) → IsWholeTally made.now.monitor (rs ++ made.now ∷ []) (tally_value self.new)) }
    {
        reach(&mut self.seen, made.instance as usize)?;
        self.add(made)
    }

    /// Counts the records of another tally.
    pub(crate) fn join(&mut self, other: &Tally) -> Result<(), AllocError>
        ensures { OnOk result ((monitor instances : ℕ) (rs more : List Record) → IsTally monitor instances rs self.old → IsWholeTally monitor more (tally_value other.now) → IsTally monitor instances (rs ++ more) self.new) }
    {
        mark_all(&mut self.seen, other.seen.as_slice());
        self.deliveries = sum(self.deliveries, other.deliveries)?;
        self.failures = sum(self.failures, other.failures)?;
        self.stopped = sum(self.stopped, other.stopped)?;
        Ok(())
    }

    /// How many instances have a record.
    fn instances(&self) -> usize
        ensures { result ≡ count_by (λ b. b) self.now.seen.items }
    {
        self.seen.iter().filter(|seen| **seen).count()
    }

    /// The numbers of the monitor's line.
    pub(crate) fn summary(&self) -> Summary
        ensures { (tasks : List Task) (rs : List Record) (monitor : ℕ) (m : Reported) → IsTally monitor (instances_in tasks m.scope) rs self.now → IsSummary tasks rs monitor m result }
    {
        Summary {
            instances: self.instances() as u64,
            deliveries: self.deliveries,
            failures: self.failures,
            stopped: self.stopped,
        }
    }
}
