//! A journal that is judged against a run.
ghost use Rattle.std.specs.Prelude.{◌≡◌, ◌≤◌, ◌<◌, [], length, false, IfOk, IfErr, OnOk};
ghost use Rattle.rv_model.specs.Numbers.{number_of};
ghost use Rattle.rv_core.specs.Judged.{JudgesBySpecs};
ghost use Rattle.rv_bind.specs.FilePieces.{FailsAs};
ghost use Rattle.rv_bind.specs.Outcomes.{BlamesReached, CountsFaults, of_text, accepted};
ghost use Rattle.rv_bind.specs.Possible.{IsUnread};
ghost use Rattle.rv_feed.specs.Lane.{FitLanes, panics_of, works_of};
ghost use Rattle.rv_tool.specs.Checks.{judged, verdict_text, verdict_status, checked_input};
ghost use Rattle.rv_tool.specs.inner.Checks.{JudgesRead, JudgesSome};
ghost use Rattle.rv_tool.specs.inner.JournalPieces.{IsSameRun, IsEnough};
ghost use Rattle.rv_tool.specs.inner.Prepared.{prepared_value, IsPrepared};
ghost use Rattle.rv_tool.specs.Possible.{MayCheck};

use crate::input::{Prepared, read_input};
use rv_bind::{BindFault, fetch};
use rv_check::{Checker, JournalReader, Verdict};
use rv_core::Setup;
use rv_feed::{RecordingLane, is_panic};
use rv_io::Store;
use rv_model::{CpuWork, Reactor};
use rv_replay::Digested;
use rv_text::{CLEAN, FAILURE, Line};
use std::alloc::{AllocError, Global};

/// How many bytes of a journal are read at a time.
const PIECE: usize = 65_536;

/// The line that says a verdict.
pub(crate) fn verdict_line(alloc: Global, verdict: Verdict) -> Result<Vec<u8>, AllocError>
    ensures { IfOk result (λ text. text.items ≡ verdict_text verdict) }
{
    let mut line = Line::new(alloc);
    match verdict {
        Verdict::Yes => line.text(b"yes\n")?,
        Verdict::No { line: number } => {
            line.text(b"no: line ")?;
            line.number(number)?;
            line.text(b"\n")?;
        }
    }
    Ok(line.into_bytes())
}

/// The status that goes with a verdict.
pub(crate) fn verdict_status(verdict: Verdict) -> u8
    ensures { result ≡ verdict_status verdict }
{
    match verdict {
        Verdict::Yes => CLEAN,
        Verdict::No { .. } => FAILURE,
    }
}

/// A bit for each monitor whose reactor is panic, by its place.
fn panic_bits(reactors: &[Reactor]) -> u32
    ensures { result ≡ number_of (panics_of reactors.now) 32 }
{
    let mut bits: u64 = 0;
    let mut bit: u64 = 1;
    for place in 0..32u8 {
        if is_panic(reactors, place) {
            bits += bit;
        }
        bit *= 2;
    }
    bits as u32
}

/// What the lanes have to do.
pub(crate) fn works(
    alloc: Global,
    lanes: Vec<RecordingLane<Digested>>,
) -> Result<Vec<CpuWork>, AllocError>
    ensures { IfOk result (λ works. works.items ≡ works_of lanes.items) }
{
    let mut works = Vec::new(alloc);
    for lane in lanes {
        works.push(lane.into_work())?;
    }
    Ok(works)
}

/// A reader of a journal of the works of these lanes, to which nothing was fed.
fn reader_of(
    alloc: Global,
    setup: Setup,
    panics: u32,
    lanes: Vec<RecordingLane<Digested>>,
) -> Result<JournalReader, AllocError>
    requires { FitLanes setup lanes.items }
    ensures begins { IfOk result (λ reader. reader ≡ record { journal = record { setup = setup; panics = panics; works = works_of lanes.items; text = [] }; stopped = false }) }
    ensures judges { OnOk result (JudgesBySpecs setup) }
{
    let works = works(alloc, lanes)?;
    let checker = Checker::new(alloc, setup, panics, works)?;
    checker.assert_invariant();
    JournalReader::new(alloc, checker)
}

/// A reader of a journal of what is ready, to which nothing was fed.
fn reader(alloc: Global, ready: Prepared) -> Result<JournalReader, AllocError>
    requires { IsPrepared ready }
    ensures begins { IfOk result (λ reader. reader ≡ record { journal = judged (prepared_value ready) []; stopped = false }) }
    ensures judges { OnOk result (JudgesBySpecs ready.setup) }
{
    let panics = panic_bits(ready.reactors.as_slice());
    reader_of(alloc, ready.setup, panics, ready.lanes)
}

/// Feeds the reader the pieces of the journal, up to its end or to a line after which no more has to be read.
fn take_pieces<S: Store>(
    alloc: Global,
    store: &mut S,
    journal: &str,
    buffer: &mut [u8],
    reader: &mut JournalReader,
) -> Result<(), BindFault>
    requires room { 0 < length buffer.old }
    requires fed { reader.old.journal.text ≡ [] }
    ensures same { IsSameRun reader.old.journal reader.new.journal }
    ensures all { OnOk result (IsEnough (S.files store.old) journal.now reader.new) }
    ensures fails { FailsAs (S.files store.old) (S.files store.new) (S.faults store.old) (S.faults store.new) result (λ files. of_text journal.now (files journal.now) accepted) }
    ensures unread { IfErr result (IsUnread journal.now) }
{
    let mut place: u64 = 0;
    for piece in 0..u64::MAX {
        let _piece = piece;
        let count = fetch(alloc, store, journal, place, buffer)?;
        if count == 0 {
            return Ok(());
        }
        match reader.feed(&buffer[..count]) {
            Ok(true) => (),
            Ok(false) => return Ok(()),
            Err(AllocError) => return Err(BindFault::Memory),
        }
        match place.checked_add(count as u64) {
            Some(next) => place = next,
            None => return Err(BindFault::Memory),
        }
    }
    Err(BindFault::Memory)
}

/// The same, with a buffer for the pieces.
fn take_journal<S: Store>(
    alloc: Global,
    store: &mut S,
    journal: &str,
    reader: &mut JournalReader,
) -> Result<(), BindFault>
    requires { reader.old.journal.text ≡ [] }
    ensures same { OnOk result (IsSameRun reader.old.journal reader.new.journal) }
    ensures all { OnOk result (IsEnough (S.files store.old) journal.now reader.new) }
    ensures fails { FailsAs (S.files store.old) (S.files store.new) (S.faults store.old) (S.faults store.new) result (λ files. of_text journal.now (files journal.now) accepted) }
    ensures unread { IfErr result (IsUnread journal.now) }
{
    let Ok(mut buffer) = vec![in alloc; 0u8; PIECE] else {
        return Err(BindFault::Memory);
    };
    take_pieces(alloc, store, journal, buffer.as_mut_slice(), reader)
}

/// The verdict on the journal, once the bindings and the trace were read.
#[tactic(auto, using(rv_bind::proofs::OutcomeLemmas::fault_counted, rv_bind::proofs::OutcomeLemmas::behind_counted))]
pub(crate) fn read_verdict<S: Store>(
    alloc: Global,
    store: &mut S,
    bindings: &str,
    trace: &str,
    journal: &str,
) -> Result<Verdict, BindFault>
    ensures kept { S.files store.new ≡ S.files store.old }
    ensures counts { CountsFaults (S.faults store.old) (S.faults store.new) result }
    ensures value { JudgesRead (S.files store.old) (S.faults store.old) (S.faults store.new) result (λ files. checked_input files bindings.now trace.now journal.now) }
    ensures named { BlamesReached (S.files store.old) result (λ files. checked_input files bindings.now trace.now journal.now) }
    ensures some { JudgesSome result (MayCheck bindings.now trace.now journal.now) }
{
    let ready = read_input(alloc, store, bindings, trace)?;
    let Ok(mut reader) = reader(alloc, ready) else {
        return Err(BindFault::Memory);
    };
    take_journal(alloc, store, journal, &mut reader)?;
    Ok(reader.verdict())
}
