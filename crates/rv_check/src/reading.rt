//! A journal's text is judged as it is read, in pieces of any length.
ghost use Rattle.std.specs.Prelude.{◌≡◌, ◌≢◌, ℕ, ◌≤◌, List, [], ◌∷◌, ◌++◌, true, length, take, drop, ◌<◌, ◌+◌, IfSome, IfNone, IfOk, OnOk, OnErr, Bool, false, not, if◌then◌else◌};
ghost use Rattle.rv_model.specs.declared.formula.Spec.{Spec};
ghost use Rattle.rv_check.specs.Checker.{CheckerValue};
ghost use Rattle.rv_check.specs.Readings.{ReaderValue, coded_reader, pieces_joined, journal_by, with_more_text, grown, has_no_end, IsFed};
ghost use Rattle.rv_check.specs.inner.Taking.{TakesJournalLine};
ghost use Rattle.rv_check.specs.Verdicts.{Journal, VerdictHolds, OneVerdict};

use crate::checker::Checker;
use crate::given::{Given, push};
use memchr::memchr;
use std::alloc::{AllocError, Global};
use std::marker::Model;

/// No line of an entry is longer than this.
const MAX_LINE: usize = 200;

/// What the text of a journal comes to.
#[derive(Clone, Copy, Debug, Drop, PartialEq, Eq)]
pub enum Verdict {
    /// It is the journal of a legal history.
    Yes,
    /// This line is the first that makes no history that may still become one, or it is the line behind the last one,
    /// where the history is not whole.
    No { line: u64 },
}

/// Contracts see what its checker was made with, the text that was fed, and whether it has stopped.
#[derive(Drop)]
pub struct JournalReader {
    checker: Checker,
    /// The line that is not ended.
    tail: Vec<u8>,
    /// Its number, or that of the line that was bad.
    line: u64,
    /// Whether a line was bad.
    stopped: bool,
    pieces: Given,
}

impl Model for JournalReader {
    ghost use Rattle.rv_model.specs.contracts.work.CpuWork as work;
    ghost use Rattle.rv_check.specs.Readings.{ReaderValue, coded_reader, pieces_joined, journal_by, IsReader};

    ghost Value = { ReaderValue };

    ghost coded = { coded_reader work.the_row.coded };

    ghost view = { λ r. record { journal = journal_by r.checker (pieces_joined r.pieces); stopped = r.stopped } };

    ghost invariant = { λ r. IsReader r.checker r.tail.items r.line r.stopped (pieces_joined r.pieces) };
}

/// The place of the first line end.
fn line_end(bytes: &[u8]) -> Option<usize>
    ensures inside { IfSome result (λ end. end < length bytes.now) }
    ensures before { IfSome result (λ end. has_no_end (take end bytes.now) ≡ true) }
    ensures split { IfSome result (λ end. bytes.now ≡ take end bytes.now ++ 10 ∷ drop (end + 1) bytes.now) }
    ensures none { IfNone result (has_no_end bytes.now ≡ true) }
{
    memchr(b'\n', bytes)
}

/// The line that ends with this part is given to the checker, unless it is too long.
fn take_line(checker: &mut Checker, tail: &mut Vec<u8>, part: &[u8]) -> Result<bool, AllocError>
    requires { length tail.old.items ≤ 200 }
    ensures takes { IfOk result (λ good. TakesJournalLine checker.old (tail.old.items ++ part.now) good checker.new tail.new.items) }
    ensures checker_kept { OnErr result (checker.new ≡ checker.old) }
    ensures tail_kept { OnErr result (tail.new.items ≡ tail.old.items) }
{
    if part.len() > MAX_LINE - tail.len() {
        return Ok(false);
    }
    if tail.is_empty() {
        return Ok(checker.line(part));
    }
    tail.extend_from_slice(part)?;
    let good = checker.line(tail);
    tail.clear();
    Ok(good)
}

/// The number of the next line: the same, if this one was bad.
fn number_behind(good: bool, line: u64, next: u64) -> u64
    ensures { result ≡ (if good then next else line) }
{
    if good { next } else { line }
}

/// Whether no byte is left.
fn is_over(tail: &[u8]) -> bool
    ensures over { result ≡ true → tail.now ≡ [] }
    ensures some { result ≡ false → tail.now ≢ [] }
{
    match tail {
        [] => true,
        [_, ..] => false,
    }
}

/// No text has two verdicts.
pub fn one_verdict()
    ensures { OneVerdict }
{}

impl JournalReader {
    /// No text yet. The checker was given no line.
    pub fn new(alloc: Global, checker: Checker) -> Result<JournalReader, AllocError>
        requires { checker.lines ≡ [] }
        ensures { IfOk result (λ reader. reader ≡ record { journal = journal_by checker []; stopped = false }) }
    {
        checker.begins();
        let tail = Vec::with_capacity(alloc, MAX_LINE)?;
        let pieces = Given::new();
        Ok(JournalReader {
            checker,
            tail,
            line: 1,
            stopped: false,
            pieces,
        })
    }

    /// The text grows by this part of a line, and by the line's end.
    fn end(&mut self, part: &[u8]) -> Result<(), AllocError>
        requires goes_on { self.old.stopped ≡ false }
        requires unended { has_no_end part.now ≡ true }
        ensures ok { OnOk result (self.new ≡ grown self.old (part.now ++ 10 ∷ []) self.new.stopped) }
        ensures err { OnErr result (self.new ≡ self.old) }
    {
        let next = self.line.checked_add(1).ok_or(AllocError)?;
        let good = take_line(&mut self.checker, &mut self.tail, part)?;
        self.line = number_behind(good, self.line, next);
        self.stopped = !good;
        push(&mut self.pieces, part);
        push(&mut self.pieces, b"\n");
        Ok(())
    }

    /// The text grows by this part of a line, which may go on.
    fn keep(&mut self, part: &[u8]) -> Result<(), AllocError>
        requires goes_on { self.old.stopped ≡ false }
        requires unended { has_no_end part.now ≡ true }
        ensures ok { OnOk result (self.new ≡ grown self.old part.now self.new.stopped) }
        ensures err { OnErr result (self.new ≡ self.old) }
    {
        if part.len() > MAX_LINE - self.tail.len() {
            self.stopped = true;
            push(&mut self.pieces, part);
            return Ok(());
        }
        self.tail.extend_from_slice(part)?;
        push(&mut self.pieces, part);
        Ok(())
    }

    /// The text grows by these bytes, which change nothing.
    fn pass(&mut self, bytes: &[u8])
        requires { self.old.stopped ≡ true }
        ensures { self.new ≡ grown self.old bytes.now true }
    {
        push(&mut self.pieces, bytes);
    }

    /// The text grows by the piece, unless memory is wanting: then by a front of it. Whether a caller may read on; if
    /// not, a line was bad, and the verdict stays.
    pub fn feed(&mut self, piece: &[u8]) -> Result<bool, AllocError>
        ensures ok { IfOk result (λ goes_on. self.new ≡ grown self.old piece.now (not goes_on)) }
        ensures err { OnErr result (IsFed self.old self.new piece.now) }
    {
        let mut rest = piece;
        while let Some(end) = line_end(rest) {
            if self.stopped {
                self.pass(rest);
                return Ok(false);
            }
            self.end(&rest[..end])?;
            rest = &rest[end + 1..];
        }
        if self.stopped {
            self.pass(rest);
            return Ok(false);
        }
        self.keep(rest)?;
        Ok(!self.stopped)
    }

    /// What the text comes to.
    pub fn verdict(&self) -> Verdict
        ensures holds { (specs : List Spec) → VerdictHolds self.now.journal specs result }
        ensures stays { self.now.stopped ≡ true → (specs : List Spec) (more : List ℕ) → VerdictHolds (with_more_text self.now.journal more) specs result }
    {
        if !self.stopped && is_over(&self.tail) && self.checker.whole() {
            return Verdict::Yes;
        }
        Verdict::No { line: self.line }
    }
}
