//! The words of a bindings line, taken from the left.
ghost use Rattle.std.specs.Prelude.{◌≡◌, ◌≤◌, ℕ, List, Option, Some, None, not, bytes_eq, position, codes, length, IfSome, IfOk, MatchOption, IsTrue};
ghost use Rattle.std.specs.List.{list_all};
ghost use Rattle.rv_model.specs.Reactors.{reactor_named};
ghost use Rattle.rv_model.specs.Words.{kind_named, scope_named};
ghost use Rattle.rv_bind.specs.inner.LineReads.{Faults, ReadsValue, ReadsOn};
ghost use Rattle.rv_bind.specs.LineWords.{word_at, no_word_left, is_name, is_name_byte, is_field, is_field_byte, mode_named, test_of, test_behind, or_syntax, when};
ghost use Rattle.std.specs.Str.{is_utf8};

use crate::bindings::Test;
use crate::fault::LineFault;
use rv_model::{Mode, Name, Reactor, Scope, SpecKind};
use rv_text::{BIND_SYNTAX, Words};
use std::alloc::Global;

/// The refusal of a line that has none of the forms.
pub(crate) const SYNTAX: LineFault = LineFault::Number(BIND_SYNTAX);

pub(crate) fn is(word: &[u8], said: &str) -> bool
    ensures { result ≡ bytes_eq word.now said.now }
{
    word == said.as_bytes()
}

/// The next word, or the refusal of a line that ends too early.
pub(crate) fn word<'a>(words: &mut Words<'a>) -> Result<&'a [u8], LineFault>
    ensures { ReadsOn (λ word. word.now) result words.new (word_at words.old) }
{
    match words.next_word() {
        Some(word) => Ok(word),
        None => Err(SYNTAX),
    }
}

/// Refuses a line that has one more word.
pub(crate) fn end(words: &mut Words<'_>) -> Result<(), LineFault>
    ensures { ReadsValue (λ done. tt) result (no_word_left words.old) }
{
    match words.next_word() {
        Some(_) => Err(SYNTAX),
        None => Ok(()),
    }
}

fn is_name_byte(byte: u8) -> bool
    ensures { result ≡ is_name_byte byte }
{
    byte >= b'a' && byte <= b'z' || (byte >= b'0' && byte <= b'9' || byte == b'_')
}

fn is_field_byte(byte: u8) -> bool
    ensures { result ≡ is_field_byte byte }
{
    is_name_byte(byte) || byte >= b'A' && byte <= b'Z'
}

fn has_name_bytes(word: &[u8]) -> bool
    ensures { result ≡ list_all is_name_byte word.now }
{
    word.iter().all(|byte| is_name_byte(*byte))
}

/// Whether the word may name a container or a monitor: at most 32 lower-case letters, digits and `_`.
pub(crate) fn is_name(word: &[u8]) -> bool
    ensures { result ≡ is_name word.now }
{
    word.len() <= 32 && has_name_bytes(word)
}

/// Whether the word may name a field: letters, digits and `_`.
pub(crate) fn is_field(word: &[u8]) -> bool
    ensures { result ≡ is_field word.now }
{
    word.iter().all(|byte| is_field_byte(*byte))
}

/// The word where it passes, and else the refusal of a line without a form.
pub(crate) fn allowed(word: &[u8], passes: bool) -> Result<&[u8], LineFault>
    ensures { ReadsValue (λ word. word.now) result (when passes word.now) }
{
    if passes { Ok(word) } else { Err(SYNTAX) }
}

pub(crate) fn scope(word: &[u8]) -> Result<Scope, LineFault>
    ensures { ReadsValue (λ scope. scope) result (or_syntax (scope_named word.now)) }
{
    Scope::from_name(word).ok_or(SYNTAX)
}

pub(crate) fn kind(word: &[u8]) -> Result<SpecKind, LineFault>
    ensures { ReadsValue (λ kind. kind) result (or_syntax (kind_named word.now)) }
{
    SpecKind::from_name(word).ok_or(SYNTAX)
}

pub(crate) fn mode(word: &[u8]) -> Result<Mode, LineFault>
    ensures { ReadsValue (λ mode. mode) result (or_syntax (mode_named word.now)) }
{
    if is(word, "event") {
        Ok(Mode::Event)
    } else if is(word, "start") {
        Ok(Mode::Start)
    } else if is(word, "start_run") {
        Ok(Mode::StartRun)
    } else if is(word, "end") {
        Ok(Mode::End)
    } else {
        Err(SYNTAX)
    }
}

pub(crate) fn reactor(word: &[u8]) -> Result<Reactor, LineFault>
    ensures { ReadsValue (λ reactor. reactor) result (or_syntax (reactor_named word.now)) }
{
    Reactor::from_name(word).ok_or(SYNTAX)
}

/// The word as text, or the refusal of one that is not UTF-8.
pub(crate) fn text(word: &[u8]) -> Result<&str, LineFault>
    ensures { ReadsValue (λ text. text.now) result (when (is_utf8 word.now) word.now) }
{
    match std::str::from_utf8(word) {
        Ok(text) => Ok(text),
        Err(_) => Err(SYNTAX),
    }
}

/// The offset at which the name of a field ends, if the word goes on after it.
fn field_end(word: &[u8]) -> Option<usize>
    ensures value { result ≡ position (λ byte. not (is_field_byte byte)) word.now }
    ensures within { IfSome result (λ end. end ≤ length word.now) }
{
    word.iter().position(|byte| !is_field_byte(*byte))
}

/// The test of a field's name and what follows it: `=` or `!=`, and a value of one byte or more.
fn test_behind(alloc: Global, field: &[u8], rest: &[u8]) -> Result<Test, LineFault>
    ensures { ReadsValue (λ test. test) result (or_syntax (test_behind field.now rest.now)) }
{
    match rest {
        [b'=', value @ ..] if !value.is_empty() => Ok(Test::Is {
            field: Name::new(alloc, field)?,
            value: Name::new(alloc, value)?,
        }),
        [b'!', b'=', value @ ..] if !value.is_empty() => Ok(Test::IsNot {
            field: Name::new(alloc, field)?,
            value: Name::new(alloc, value)?,
        }),
        _ => Err(SYNTAX),
    }
}

/// The test that a word says, `F=W` or `F!=W`, or the refusal of a word that says none.
pub(crate) fn test(alloc: Global, word: &[u8]) -> Result<Test, LineFault>
    ensures { ReadsValue (λ test. test) result (or_syntax (test_of word.now)) }
{
    match field_end(word) {
        None | Some(0) => Err(SYNTAX),
        Some(end) => test_behind(alloc, &word[..end], &word[end..]),
    }
}
