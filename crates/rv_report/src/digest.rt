//! What is kept of records where the bindings are not at hand.
ghost use Rattle.std.specs.Prelude.{◌≡◌, ◌<◌, ◌∷◌, [], ◌++◌, ℕ, List, length, OnOk};
ghost use Rattle.rv_model.specs.declared.record.Record.{Record};
ghost use Rattle.rv_model.specs.Records.{status_of};
ghost use Rattle.rv_report.specs.Tallies.{IsDigest, tally_at};
ghost use Rattle.rv_report.specs.inner.Tallies.{AreWhole};

use crate::exit::status_with;
use crate::reactions::has_reaction;
use crate::tally::Tally;
use rv_model::Record;
use rv_text::CLEAN;
use std::alloc::{AllocError, Global};
use std::marker::Model;

/// A tally for each monitor that has a record, the records that have a reaction, and the exit status.
#[derive(Drop)]
pub struct Digest {
    alloc: Global,
    pub(crate) tallies: Vec<Tally>,
    pub(crate) reactions: Vec<Record>,
    pub(crate) status: u8,
}

impl Model for Digest {
    ghost use Rattle.rv_report.specs.Tallies.{FoundValue};

    ghost Value = { FoundValue };

    ghost view = { λ f. record { tallies = f.tallies.items; printed = f.reactions.items; status = f.status } };
}

/// There is a tally for the monitor.
fn reach(alloc: Global, tallies: &mut Vec<Tally>, monitor: usize) -> Result<(), AllocError>
    ensures many { OnOk result (monitor < length tallies.new.items) }
    ensures same { OnOk result ((k : ℕ) → tally_at tallies.new.items k ≡ tally_at tallies.old.items k) }
{
    while tallies.len() <= monitor {
        tallies.push(Tally::new(alloc, 0)?)?;
    }
    Ok(())
}

/// Counts a record.
#[inline(always)]
fn count(alloc: Global, tallies: &mut Vec<Tally>, made: &Record) -> Result<(), AllocError>
    ensures { OnOk result ((rs : List Record) → AreWhole rs tallies.old.items → AreWhole (rs ++ made.now ∷ []) tallies.new.items) }
{
    let monitor = made.monitor as usize;
    reach(alloc, tallies, monitor)?;
    tallies[monitor].add_any(made)
}

/// The status with one record more. It is written only where it is another one: lanes stand side by side, and what one
/// writes its neighbours read anew.
#[inline(always)]
fn note_status(status: &mut u8, made: &Record)
    ensures { (rs : List Record) → status.old ≡ status_of rs → status.new ≡ status_of (rs ++ made.now ∷ []) }
{
    let with = status_with(*status, made);
    if with != *status {
        *status = with;
    }
}

impl Digest {
    /// Of no records.
    pub fn new(alloc: Global) -> Digest
        ensures { IsDigest [] result }
    {
        Digest {
            alloc,
            tallies: Vec::new(alloc),
            reactions: Vec::new(alloc),
            status: CLEAN,
        }
    }

    /// One record more.
    #[inline(always)]
    pub fn add(&mut self, made: &Record) -> Result<(), AllocError>
        ensures { OnOk result ((rs : List Record) → IsDigest rs self.old → IsDigest (rs ++ made.now ∷ []) self.new) }
    {
        count(self.alloc, &mut self.tallies, made)?;
        note_status(&mut self.status, made);
        if has_reaction(made) {
            self.reactions.push(*made)?;
        }
        Ok(())
    }
}
