//! What the lines of a text tell, events or not: how many they are, their ends, and the kernel's comment on its buffer.
ghost use Rattle.std.specs.Prelude.{◌≡◌, [], ◌∷◌, nat_eq, OnOk};
ghost use Rattle.std.specs.List.{ends_with};
ghost use Rattle.std.specs.Option.{option_or};
ghost use Rattle.rv_text.specs.TextLines.{line_text};
ghost use Rattle.rv_matches.specs.TextFacts.{TellsTextLine, entries_in, entries_on, text_facts};
ghost use Rattle.rv_matches.specs.inner.TextSteps.{TellsReturn, if_overwritten};

use crate::words::one_more;
use rv_text::{ByteClass, TextLine, Words, decimal, run_end};
use std::alloc::AllocError;
use std::marker::Model;

/// The numbers of the kernel's comment on its buffer.
#[derive(Clone, Copy, Debug, Drop, PartialEq, Eq)]
pub struct Entries {
    pub line: u32,
    pub kept: u64,
    pub written: u64,
}

/// What the lines of a text tell, events or not.
#[derive(Drop)]
pub struct TextFacts {
    lines: u64,
    overwritten: Option<Entries>,
    first_return: Option<u32>,
    returns: u64,
}

impl Model for TextFacts {
    ghost use Rattle.rv_matches.specs.TextFacts.{TextFactsValue};

    ghost Value = { TextFactsValue };

    ghost view = { λ t. record { lines = t.lines; overwritten = t.overwritten; returns = record { first = t.first_return; count = t.returns } } };
}

/// Whether the text ends in a carriage return.
#[inline(always)]
fn is_returning(text: &[u8]) -> bool
    ensures { result ≡ ends_with nat_eq text.now (13 ∷ []) }
{
    !text.is_empty() && text[text.len() - 1] == b'\r'
}

/// The two numbers that a slash parts.
fn entries_in(line: u32, word: &[u8]) -> Option<Entries>
    ensures { result ≡ entries_in line word.now }
{
    let slash = run_end(ByteClass::Digit, word, 0);
    if slash == word.len() || word[slash] != b'/' {
        return None;
    }
    let kept = decimal(&word[..slash])?;
    let written = decimal(&word[slash + 1..])?;
    Some(Entries {
        line,
        kept,
        written,
    })
}

/// What a comment says of the buffer.
fn entries_on(line: TextLine) -> Option<Entries>
    ensures { result ≡ entries_on (line_text line.entry) }
{
    let text = line.bytes;
    if text.is_empty() || text[0] != b'#' {
        return None;
    }
    let mut words = Words::new(text);
    if words.next_word()? != b"#".as_slice() {
        return None;
    }
    if words.next_word()? != b"entries-in-buffer/entries-written:".as_slice() {
        return None;
    }
    entries_in(line.number, words.next_word()?)
}

/// The comment of the line, where by it more was written than is left.
fn overwritten_on(line: TextLine) -> Option<Entries>
    ensures { result ≡ if_overwritten (entries_on (line_text line.entry)) }
{
    let entries = entries_on(line)?;
    if entries.kept < entries.written {
        return Some(entries);
    }
    None
}

impl TextFacts {
    /// No line was seen.
    pub fn new() -> TextFacts
        ensures { result ≡ text_facts [] }
    {
        TextFacts {
            lines: 0,
            overwritten: None,
            first_return: None,
            returns: 0,
        }
    }

    /// Counts the line if it ends in a carriage return.
    fn add_return(&mut self, line: TextLine) -> Result<(), AllocError>
        ensures returns { OnOk result (TellsReturn (line_text line.entry) self.old.returns self.new.returns) }
        ensures kept { OnOk result ((self.new.lines ≡ self.old.lines) × (self.new.overwritten ≡ self.old.overwritten)) }
    {
        if !is_returning(line.bytes) {
            return Ok(());
        }
        self.returns = one_more(self.returns)?;
        if self.first_return.is_none() {
            self.first_return = Some(line.number);
        }
        Ok(())
    }

    /// Keeps the line's comment if it is the first.
    fn add_comment(&mut self, line: TextLine)
        ensures overwritten { self.new.overwritten ≡ option_or self.old.overwritten (if_overwritten (entries_on (line_text line.entry))) }
        ensures kept { (self.new.lines ≡ self.old.lines) × (self.new.returns ≡ self.old.returns) }
    {
        if self.overwritten.is_none() {
            if let Some(entries) = overwritten_on(line) {
                self.overwritten = Some(entries);
            }
        }
    }

    /// One more line.
    pub fn add(&mut self, line: TextLine) -> Result<(), AllocError>
        ensures { OnOk result (TellsTextLine (line_text line.entry) self.old self.new) }
    {
        self.lines = one_more(self.lines)?;
        self.add_return(line)?;
        self.add_comment(line);
        Ok(())
    }

    /// How many lines there are.
    pub fn lines(&self) -> u64
        ensures { result ≡ self.now.lines }
    {
        self.lines
    }

    /// The first comment by which more was written than is left.
    pub fn overwritten(&self) -> Option<Entries>
        ensures { result ≡ self.now.overwritten }
    {
        self.overwritten
    }

    /// The first line that ends in a carriage return.
    pub fn first_return(&self) -> Option<u32>
        ensures { result ≡ self.now.returns.first }
    {
        self.first_return
    }

    /// How many lines end in a carriage return.
    pub fn returns(&self) -> u64
        ensures { result ≡ self.now.returns.count }
    {
        self.returns
    }
}
