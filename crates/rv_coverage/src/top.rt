//! The top call.
ghost use Rattle.std.specs.Prelude.{◌≡◌, Some, None};
ghost use Rattle.rv_io.specs.Files.{Files};
ghost use Rattle.rv_bind.specs.Outcomes.{CountsFaults};
ghost use Rattle.rv_tool.specs.Calls.{call};
ghost use Rattle.rv_tool.specs.Words.{texts_of};
ghost use Rattle.rv_tool.specs.inner.Commands.{ComesTo};
ghost use Rattle.rv_coverage.specs.Headline.{AnswersCoverage, AnswersCoverageOpaque, IsCoverage};
ghost use Rattle.rv_coverage.specs.Texts.{MayTexts, texts_in};
ghost use Rattle.rv_coverage.specs.Words.{coverage_command_of};
ghost use Rattle.rv_coverage.specs.inner.Words.{coverage_command_value};

use crate::covering::{covered, read_watched};
use crate::words::{CoverageCommand, read_words};
use rv_bind::BindFault;
use rv_io::{Sink, Store};
use rv_tool::{Finished, FinishedRun, put_done, put_usage};
use std::alloc::{AllocError, Global};

/// Tells what the run of the two files has watched: reads them from the store and puts the text into the sink. `answers`
/// speaks of a store that tells its files, `opaque` of one that does not, as the disk.
pub fn rv_coverage<S: Store, K: Sink>(
    alloc: Global,
    words: &[String],
    store: &mut S,
    out: &mut K,
) -> Finished
    ensures kept { S.files store.new ≡ S.files store.old }
    ensures answers { (files : Files) → S.files store.old ≡ Some files → AnswersCoverage (coverage_command_of (texts_of words.now)) files (call S.Store K.Sink store.old store.new out.old out.new result) }
    ensures opaque { S.files store.old ≡ None → AnswersCoverageOpaque (coverage_command_of (texts_of words.now)) (call S.Store K.Sink store.old store.new out.old out.new result) }
{
    match read_words(words) {
        Some(command) => put_done(alloc, out, watched(alloc, store, command)),
        None => put_usage(alloc, out),
    }
}

/// Reads the files and does the run. Nothing is put yet.
#[tactic(auto, using(rv_bind::proofs::OutcomeLemmas::fault_counted, rv_bind::proofs::OutcomeLemmas::none_counted))]
fn watched<S: Store>(
    alloc: Global,
    store: &mut S,
    command: CoverageCommand<'_>,
) -> Result<FinishedRun, BindFault>
    ensures kept { S.files store.new ≡ S.files store.old }
    ensures counts { CountsFaults (S.faults store.old) (S.faults store.new) result }
    ensures comes { ComesTo (MayTexts command.entry.bindings.now command.entry.trace.now) (IsCoverage (coverage_command_value command.entry)) (λ files. texts_in files command.entry.bindings.now command.entry.trace.now) (S.files store.old) (S.faults store.old) (S.faults store.new) result }
{
    let read = read_watched(alloc, store, command)?;
    match covered(alloc, command, read) {
        Ok(done) => Ok(done),
        Err(AllocError) => Err(BindFault::Memory),
    }
}
