//! On which lines the bindings say what.
ghost use Rattle.std.specs.Prelude.{◌≡◌, IfOk, filter_map};
ghost use Rattle.rv_text.specs.TextLines.{line_text, lines_of};
ghost use Rattle.rv_facts.specs.BindingLines.{AreLinesOf, begun_in, line_with, named_in};

use rv_model::Name;
use rv_text::{Cursor, TextLine, Words, push_some};
use std::alloc::{AllocError, Global};

/// A line about the monitor of this name.
#[derive(Drop)]
pub struct Named {
    pub monitor: Name,
    pub line: u32,
}

/// A `begin` line.
#[derive(Drop)]
pub struct Begun {
    pub monitor: Name,
    pub atom: Name,
    pub line: u32,
}

/// The numbers of the lines of a bindings file, by what they say.
#[derive(Drop)]
pub struct BindingLines {
    /// The `monitor` lines.
    pub monitors: Vec<u32>,
    /// The `on` lines.
    pub rules: Vec<u32>,
    /// The `react` lines.
    pub reacts: Vec<Named>,
    /// The `off` lines.
    pub offs: Vec<Named>,
    /// The `begin` lines.
    pub begins: Vec<Begun>,
}

/// The line's number, where its first word is this one.
fn line_with(first: &[u8], line: &TextLine<'_>) -> Option<u32>
    ensures { result ≡ line_with first.now (line_text line.now) }
{
    let mut words = Words::new(line.bytes);
    let word = words.next_word()?;
    if word == first {
        Some(line.number)
    } else {
        None
    }
}

/// The numbers of the lines with this first word.
#[tactic(auto, using(crate::proofs::ReadLemmas::none_read, crate::proofs::ReadLemmas::more_read, crate::proofs::ReadLemmas::all_read))]
fn lines_with(alloc: Global, text: &[u8], first: &[u8]) -> Result<Vec<u32>, AllocError>
    ensures { IfOk result (λ lines. lines.items ≡ filter_map (line_with first.now) (lines_of text.now)) }
{
    let mut cursor = Cursor::new(text);
    let mut found = Vec::new(alloc);
    'lines: while let Some(line) = cursor.next_line() {
        push_some(&mut found, line_with(first, &line))?;
    }
    Ok(found)
}

/// The name behind the line's first word, where that is this one.
fn named_in(alloc: Global, first: &[u8], line: &TextLine<'_>) -> Result<Option<Named>, AllocError>
    ensures { IfOk result (λ named. named ≡ named_in first.now (line_text line.now)) }
{
    let mut words = Words::new(line.bytes);
    let Some(word) = words.next_word() else {
        return Ok(None);
    };
    let Some(name) = words.next_word() else {
        return Ok(None);
    };
    if word != first {
        return Ok(None);
    }
    let monitor = Name::new(alloc, name)?;
    Ok(Some(Named {
        monitor,
        line: line.number,
    }))
}

/// The lines with this first word, and a name behind it.
#[tactic(auto, using(crate::proofs::ReadLemmas::none_read, crate::proofs::ReadLemmas::more_read, crate::proofs::ReadLemmas::all_read))]
fn lines_named(alloc: Global, text: &[u8], first: &[u8]) -> Result<Vec<Named>, AllocError>
    ensures { IfOk result (λ lines. lines.items ≡ filter_map (named_in first.now) (lines_of text.now)) }
{
    let mut cursor = Cursor::new(text);
    let mut found = Vec::new(alloc);
    'lines: while let Some(line) = cursor.next_line() {
        let read = named_in(alloc, first, &line)?;
        push_some(&mut found, read)?;
    }
    Ok(found)
}

/// The two names behind the line's first word, where that is this one.
fn begun_in(alloc: Global, first: &[u8], line: &TextLine<'_>) -> Result<Option<Begun>, AllocError>
    ensures { IfOk result (λ begun. begun ≡ begun_in first.now (line_text line.now)) }
{
    let mut words = Words::new(line.bytes);
    let Some(word) = words.next_word() else {
        return Ok(None);
    };
    let Some(name) = words.next_word() else {
        return Ok(None);
    };
    let Some(atom) = words.next_word() else {
        return Ok(None);
    };
    if word != first {
        return Ok(None);
    }
    let monitor = Name::new(alloc, name)?;
    let atom = Name::new(alloc, atom)?;
    Ok(Some(Begun {
        monitor,
        atom,
        line: line.number,
    }))
}

/// The lines with this first word, and two names behind it.
#[tactic(auto, using(crate::proofs::ReadLemmas::none_read, crate::proofs::ReadLemmas::more_read, crate::proofs::ReadLemmas::all_read))]
fn lines_begun(alloc: Global, text: &[u8], first: &[u8]) -> Result<Vec<Begun>, AllocError>
    ensures { IfOk result (λ lines. lines.items ≡ filter_map (begun_in first.now) (lines_of text.now)) }
{
    let mut cursor = Cursor::new(text);
    let mut found = Vec::new(alloc);
    'lines: while let Some(line) = cursor.next_line() {
        let read = begun_in(alloc, first, &line)?;
        push_some(&mut found, read)?;
    }
    Ok(found)
}

/// The lines of a bindings file, whose text was accepted: there each line with one of these words is of its form.
pub fn binding_lines(alloc: Global, text: &[u8]) -> Result<BindingLines, AllocError>
    ensures { IfOk result (λ lines. AreLinesOf text.now lines) }
{
    Ok(BindingLines {
        monitors: lines_with(alloc, text, b"monitor")?,
        rules: lines_with(alloc, text, b"on")?,
        reacts: lines_named(alloc, text, b"react")?,
        offs: lines_named(alloc, text, b"off")?,
        begins: lines_begun(alloc, text, b"begin")?,
    })
}
