//! Lanes that keep a digest of their records.
ghost use Rattle.std.specs.Prelude.{◌≡◌, ◌∷◌, [], ◌++◌, false, List, IfOk};
ghost use Rattle.rv_model.specs.declared.record.Record.{Record};
ghost use Rattle.rv_model.specs.Records.{sort_records};
ghost use Rattle.rv_model.specs.Reports.{report_text};
ghost use Rattle.rv_feed.specs.Lane.{lane_records};
ghost use Rattle.rv_report.specs.Exit.{IsStatus};
ghost use Rattle.rv_report.specs.Reported.{reported_of};
ghost use Rattle.rv_report.specs.Tallies.{IsDigest};

use rv_bind::Bindings;
use rv_feed::{Recorder, RecordingLane};
use rv_model::{GhostList, Record};
use rv_report::{Digest, Found, RunReport, report_found};
use rv_slots::Tasks;
use std::alloc::{AllocError, Global};
use std::marker::Model;

/// A digest of records. Contracts see the records.
#[derive(Drop)]
pub struct Digested {
    digest: Digest,
    /// Whether a record found no memory, from which on none is counted.
    full: bool,
    records: GhostList<Record>,
}

impl Model for Digested {
    ghost use Rattle.std.specs.Prelude.{◌≡◌, List, false};
    ghost use Rattle.rv_model.specs.declared.record.Record.{Record};
    ghost use Rattle.rv_report.specs.Tallies.{IsDigest};

    ghost Value = { List Record };

    ghost view = { λ d. d.records };

    ghost invariant = { λ d. d.full ≡ false → IsDigest d.records d.digest };
}

/// Counts a record, unless one found no memory before it. True where one has found none.
#[inline(always)]
fn count(digest: &mut Digest, full: bool, made: &Record) -> bool
    ensures before { result ≡ false → full ≡ false }
    ensures counted { result ≡ false → (rs : List Record) → IsDigest rs digest.old → IsDigest (rs ++ made.now ∷ []) digest.new }
{
    full || digest.add(made).is_err()
}

impl Digested {
    /// Of no records.
    pub fn new(alloc: Global) -> Digested
        ensures { result ≡ [] }
    {
        Digested {
            digest: Digest::new(alloc),
            full: false,
            records: GhostList::new(),
        }
    }

    /// The digest, unless a record found no memory.
    pub fn digest(&self) -> Result<&Digest, AllocError>
        ensures { IfOk result (λ digest. IsDigest self.now digest.now) }
    {
        if self.full {
            Err(AllocError)
        } else {
            Ok(&self.digest)
        }
    }
}

impl Recorder for Digested {
    ghost records = { λ d. d };

    #[inline(always)]
    fn add(&mut self, made: &Record) {
        // (written only where it turns: lanes stand side by side)
        if count(&mut self.digest, self.full, made) {
            self.full = true;
        }
        self.records.push(made);
    }
}

/// The report of all lanes' records, in the order of the trace. The one error is want of memory, which may have come
/// in the run.
pub fn report_lanes(
    alloc: Global,
    bindings: &Bindings,
    tasks: &Tasks,
    lanes: &[RecordingLane<Digested>],
) -> Result<RunReport, AllocError>
    ensures text { IfOk result (λ report. report.text.items ≡ report_text (reported_of bindings.now) tasks.now (sort_records (lane_records lanes.now))) }
    ensures status { IfOk result (λ report. IsStatus (lane_records lanes.now) report.status) }
{
    let mut found = Found::new(alloc, bindings, tasks)?;
    for lane in lanes {
        found.join(bindings, lane.recorder().digest()?)?;
    }
    found.sort()?;
    report_found(alloc, bindings, tasks, &found)
}
