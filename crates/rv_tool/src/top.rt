//! The top call.
ghost use Rattle.std.specs.Prelude.{◌≡◌, [], Some, None, option_copied, IfOk};
ghost use Rattle.rv_io.specs.Files.{Files};
ghost use Rattle.rv_bind.specs.Outcomes.{CountsFaults};
ghost use Rattle.rv_tool.specs.Calls.{call, call_end};
ghost use Rattle.rv_tool.specs.Checks.{verdict_text, verdict_status};
ghost use Rattle.rv_tool.specs.inner.Commands.{CommandComes, IsFinished, IsText};
ghost use Rattle.rv_tool.specs.Puts.{IsPut};
ghost use Rattle.rv_tool.specs.Headline.{PrintsText};
ghost use Rattle.rv_tool.specs.Opaque.{AnswersOpaque};
ghost use Rattle.rv_tool.specs.Output.{refusal_text, missing_text};
ghost use Rattle.rv_tool.specs.Runs.{Answers};
ghost use Rattle.rv_tool.specs.Verdicts.{Verdicts};
ghost use Rattle.rv_tool.specs.Words.{command_of, load, texts_of};
ghost use Rattle.rv_tool.specs.inner.Words.{command_value, IsWellNamed};

use crate::check::{read_verdict, verdict_line, verdict_status};
use crate::control::read_control;
use crate::feed::fed;
use crate::feed_beside::read_beside;
use crate::header::read_header;
use crate::input::{assert_one, read_input};
use crate::journal::{read_recordable, recorded};
use crate::listed::read_listed;
use crate::load::{BINDINGS, TRACE, generated_store};
use crate::output::{missing_line, put_text, refusal_line};
use crate::replay::{FinishedRun, replayed};
use crate::table::read_table;
use crate::watch::{read_watched, watched};
use crate::words::{ToolCommand, read_words};
use rv_bind::BindFault;
use rv_check::Verdict;
use rv_io::{Gate, Sink, Store};
use rv_model::Closed;
use rv_text::{CLEAN, NO_MEMORY, REFUSED, Refusal, UNREAD, USAGE};
use std::alloc::{AllocError, Global};
use std::thread::Threads;

/// What a call came to.
#[derive(Drop)]
pub struct Finished {
    /// 0 clean, 1 a failure or a journal that is not the run's, 2 refused, 3 a file that cannot be read, 4 a put that failed, 5 no memory, 6 an instance was stopped.
    pub status: u8,
    /// The history of the run, which only contracts see. It is empty where nothing ran.
    pub closed: Closed,
}

/// Does what the words ask for: reads the files from the store and puts the output into the sink. `answers` and
/// `verdicts` speak of a store that tells its files, `opaque` of one that does not, as the disk.
pub fn rv<R: Threads + Sync, S: Store, K: Sink, G: Gate + Send>(
    rt: &R,
    alloc: Global,
    words: &[String],
    store: &mut S,
    out: &mut K,
    gate: &G,
) -> Finished
    ensures kept { S.files store.new ≡ S.files store.old }
    ensures answers { (files : Files) → S.files store.old ≡ Some files → Answers (command_of (texts_of words.now)) files (call S.Store K.Sink store.old store.new out.old out.new result) }
    ensures verdicts { (files : Files) → S.files store.old ≡ Some files → Verdicts (command_of (texts_of words.now)) files (call S.Store K.Sink store.old store.new out.old out.new result) }
    ensures opaque { S.files store.old ≡ None → AnswersOpaque (command_of (texts_of words.now)) (call S.Store K.Sink store.old store.new out.old out.new result) }
{
    match read_words(words) {
        Some(command) => put_done(alloc, out, run(rt, alloc, store, gate, command)),
        None => put_usage(alloc, out),
    }
}

/// Reads the files of a command and does it. Nothing is put yet.
#[tactic(auto, using(rv_bind::proofs::OutcomeLemmas::none_counted, rv_bind::proofs::OutcomeLemmas::fault_counted))]
fn run<R: Threads + Sync, S: Store, G: Gate + Send>(
    rt: &R,
    alloc: Global,
    store: &mut S,
    gate: &G,
    command: ToolCommand<'_>,
) -> Result<FinishedRun, BindFault>
    requires { IsWellNamed command }
    ensures kept { S.files store.new ≡ S.files store.old }
    ensures counts { CountsFaults (S.faults store.old) (S.faults store.new) result }
    ensures comes { CommandComes (command_value command.entry) (S.files store.old) (S.faults store.old) (S.faults store.new) result }
{
    match command {
        ToolCommand::Replay { bindings, trace } => {
            let ready = read_listed(alloc, store, bindings, trace)?;
            ended(replayed(alloc, ready))
        }
        ToolCommand::Feed { bindings, trace } => {
            let ready = read_input(alloc, store, bindings, trace)?;
            ended(fed(rt, alloc, gate, ready))
        }
        ToolCommand::FeedBeside {
            bindings,
            trace,
            script,
        } => {
            let ready = read_beside(alloc, store, bindings, trace, script)?;
            ended(fed(rt, alloc, gate, ready))
        }
        ToolCommand::Watch {
            bindings,
            trace,
            monitor,
            instance,
        } => {
            let ready = read_watched(alloc, store, bindings, trace, monitor, instance)?;
            assert_one(&ready.ready);
            ended(watched(rt, alloc, gate, ready))
        }
        ToolCommand::Journal { bindings, trace } => {
            let ready = read_recordable(alloc, store, bindings, trace)?;
            assert_one(&ready);
            ended(recorded(rt, alloc, gate, ready))
        }
        ToolCommand::Check {
            bindings,
            trace,
            journal,
        } => {
            let verdict = read_verdict(alloc, store, bindings, trace, journal)?;
            ended(judged(alloc, verdict))
        }
        ToolCommand::Table { kind, file } => {
            let text = read_table(alloc, store, kind, file)?;
            Ok(without_run(text, CLEAN))
        }
        ToolCommand::Header { name, file } => {
            let text = read_header(alloc, store, name, file)?;
            Ok(without_run(text, CLEAN))
        }
        ToolCommand::Control { bindings, script } => {
            let session = read_control(alloc, store, bindings, script)?;
            Ok(without_run(session.text, session.status))
        }
        ToolCommand::Load { blocks } => run_load(rt, alloc, gate, blocks),
    }
}

/// Runs so many blocks of the generated input.
fn run_load<R: Threads + Sync, G: Gate + Send>(
    rt: &R,
    alloc: Global,
    gate: &G,
    blocks: u32,
) -> Result<FinishedRun, BindFault>
    ensures { CommandComes (load blocks) None 0 0 result }
{
    let Ok(mut store) = generated_store(alloc, blocks) else {
        return Err(BindFault::Memory);
    };
    let ready = read_input(alloc, &mut store, BINDINGS, TRACE)?;
    ended(fed(rt, alloc, gate, ready))
}

/// What was done; want of memory becomes a fault.
fn ended(done: Result<FinishedRun, AllocError>) -> Result<FinishedRun, BindFault>
    ensures { IsFinished done result }
{
    match done {
        Ok(done) => Ok(done),
        Err(AllocError) => Err(BindFault::Memory),
    }
}

/// What came without a run: a text and a status, and no history.
fn without_run(text: Vec<u8>, status: u8) -> FinishedRun
    ensures { IsText text.items status result.closed result.text.items result.status }
{
    FinishedRun {
        status,
        text,
        closed: Closed::new(),
    }
}

/// The line of a verdict.
fn judged(alloc: Global, verdict: Verdict) -> Result<FinishedRun, AllocError>
    ensures { IfOk result (λ done. IsText (verdict_text verdict) (verdict_status verdict) done.closed done.text.items done.status) }
{
    let text = verdict_line(alloc, verdict)?;
    Ok(without_run(text, verdict_status(verdict)))
}

/// Puts the text of what was done, or a line that says why there is none. Want of memory touches no sink (status 5).
pub fn put_done<K: Sink>(
    alloc: Global,
    out: &mut K,
    done: Result<FinishedRun, BindFault>,
) -> Finished
    ensures { IsPut done (call_end K.Sink out.old out.new result) }
{
    match done {
        Ok(
            FinishedRun {
                status,
                text,
                closed,
            },
        ) => Finished {
            status: put_text(out, text.as_slice(), status),
            closed,
        },
        Err(BindFault::Refused { file, refusal }) => refused(
            alloc,
            out,
            Some(file.bytes()),
            refusal,
        ),
        Err(BindFault::Unread { file }) => unread(alloc, out, file.bytes()),
        Err(BindFault::Memory) => give_up(),
    }
}

/// Says that the words are no command.
pub fn put_usage<K: Sink>(alloc: Global, out: &mut K) -> Finished
    ensures { PrintsText (refusal_text None (record { number = USAGE; line = 0 })) 2 (call_end K.Sink out.old out.new result) }
{
    refused(
        alloc,
        out,
        None,
        Refusal {
            number: USAGE,
            line: 0,
        },
    )
}

/// Puts the line of a refusal.
fn refused<K: Sink>(alloc: Global, out: &mut K, file: Option<&[u8]>, refusal: Refusal) -> Finished
    ensures { PrintsText (refusal_text (option_copied file.entry) refusal) 2 (call_end K.Sink out.old out.new result) }
{
    match refusal_line(alloc, file, refusal) {
        Ok(text) => Finished {
            status: put_text(out, text.as_slice(), REFUSED),
            closed: Closed::new(),
        },
        Err(AllocError) => give_up(),
    }
}

/// Puts the line of a file that cannot be read.
fn unread<K: Sink>(alloc: Global, out: &mut K, file: &[u8]) -> Finished
    ensures { PrintsText (missing_text file.now) 3 (call_end K.Sink out.old out.new result) }
{
    match missing_line(alloc, file) {
        Ok(text) => Finished {
            status: put_text(out, text.as_slice(), UNREAD),
            closed: Closed::new(),
        },
        Err(AllocError) => give_up(),
    }
}

/// Ends for want of memory, with nothing put.
fn give_up() -> Finished
    ensures status { result.status ≡ 5 }
    ensures closed { result.closed ≡ [] }
{
    Finished {
        status: NO_MEMORY,
        closed: Closed::new(),
    }
}
