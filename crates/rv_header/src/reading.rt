//! From a header's text to its name and automaton.
ghost use Rattle.std.specs.Prelude.{◌≡◌, List, ℕ, IfOk, Ok, map, drop};
ghost use Rattle.std.specs.Str.{bytes_eq};
ghost use Rattle.rv_text.specs.Readings.{Gives};
ghost use Rattle.rv_dot.specs.inner.Held.{bytes_of};
ghost use Rattle.rv_header.specs.inner.Taking.{name_in, are_few, file_in, pieces, piece_from, members_in, drawing_by};
ghost use Rattle.rv_header.specs.HeaderText.{header_text};
ghost use Rattle.rv_dot.specs.Canonical.{drawing_text};
ghost use Rattle.rv_header.specs.declared.reading.Header.{Header as HeaderValue};
ghost use Rattle.rv_header.specs.Headers.{IsHeaderOf, Finds};

use crate::drawing::{Drawing, drawn};
use crate::naming::{has_no_tables, is_header_name};
use crate::tables::written;
use crate::taking::{
    are_short, behind, behind_two, members_in, piece_from, pieces, quoted_in, text_at,
};
use rv_dot::read_dot;
use rv_model::{Automaton, Name};
use rv_text::{HEADER_SYNTAX, Line, Refusal, Refused};
use std::alloc::{AllocError, Global};

/// The most states of an automaton.
const MOST_STATES: usize = 31;
/// The most events of an automaton.
const MOST_EVENTS: usize = 64;

/// The name and the automaton that C tables are of.
#[derive(Drop)]
pub struct Header {
    pub name: Name,
    pub automaton: Automaton,
}

/// The refusal of a text that is no header's.
fn refused() -> Refused
    ensures { result ≡ Refused.Because (record { number = HEADER_SYNTAX; line = 0 }) }
{
    Refused::Because(Refusal::whole(HEADER_SYNTAX))
}

/// The header's name in the text.
fn name_in<'a>(alloc: Global, bytes: &'a [u8]) -> Result<&'a [u8], AllocError>
    ensures { IfOk result (λ name. name.now ≡ name_in bytes.now) }
{
    let text = piece_from(alloc, bytes, b' ', 1)?;
    Ok(behind(text, b"states_".len()))
}

/// Whether there are at most so many names, and none is too long.
fn are_few(names: &[&[u8]], most: usize) -> bool
    ensures { result ≡ are_few most (map bytes_of names.now) }
{
    names.len() <= most && are_short(names)
}

/// The text of an automaton file that draws the tables whose rows and marks stand in these texts.
fn drawn_by(
    alloc: Global,
    name: &[u8],
    states: &[&[u8]],
    events: &[&[u8]],
    rows: &[u8],
    marks: &[u8],
) -> Result<Line, AllocError>
    ensures { IfOk result (λ text. text ≡ drawing_text (drawing_by name.now (map bytes_of states.now) (map bytes_of events.now) (drop 2 (pieces 123 rows.now)) (members_in (piece_from 123 1 marks.now)))) }
{
    let lines = pieces(alloc, rows, b'{')?;
    let marks = members_in(alloc, piece_from(alloc, marks, b'{', 1)?)?;
    let drawing = Drawing {
        name,
        states,
        events,
        rows: behind_two(&lines),
        marks: &marks,
    };
    drawn(alloc, drawing)
}

/// The text of an automaton file that draws the same, where it is no longer than such a text may be.
#[tactic(auto, unfolding(crate::specs::inner::Taking::piece_from))]
fn file_in(alloc: Global, bytes: &[u8], name: &[u8]) -> Result<Option<Line>, AllocError>
    requires { name.now ≡ name_in bytes.now }
    ensures { IfOk result (λ text. text ≡ file_in bytes.now) }
{
    let texts = pieces(alloc, bytes, b'.')?;
    let states = quoted_in(alloc, text_at(&texts, 1))?;
    let events = quoted_in(alloc, text_at(&texts, 2))?;
    if !are_few(&states, MOST_STATES) || !are_few(&events, MOST_EVENTS) {
        return Ok(None);
    }
    let rows = text_at(&texts, 3);
    let marks = text_at(&texts, 5);
    Ok(Some(drawn_by(alloc, name, &states, &events, rows, marks)?))
}

/// The automaton, where the text is a header's.
fn automaton_in(alloc: Global, bytes: &[u8], name: &[u8]) -> Result<Automaton, Refused>
    requires { name.now ≡ name_in bytes.now }
    ensures { (h : HeaderValue) → IsHeaderOf bytes.now h → Gives (λ a. a) result (Ok h.automaton) }
{
    let Some(text) = file_in(alloc, bytes, name)? else {
        return Err(refused());
    };
    read_dot(alloc, text.bytes())
}

/// Whether the text is what is written of the automaton.
fn is_written(
    alloc: Global,
    bytes: &[u8],
    name: &[u8],
    automaton: &Automaton,
) -> Result<bool, AllocError>
    ensures { IfOk result (λ same. same ≡ bytes_eq (header_text name.now automaton.now) bytes.now) }
{
    let text = written(alloc, name, automaton)?;
    Ok(text.as_slice() == bytes)
}

/// The name and the automaton of a text, or its refusal.
pub fn read_header(alloc: Global, bytes: &[u8]) -> Result<Header, Refused>
    ensures { Finds (IsHeaderOf bytes.now) HEADER_SYNTAX result }
{
    let name = name_in(alloc, bytes)?;
    if !is_header_name(name) {
        return Err(refused());
    }
    let automaton = match automaton_in(alloc, bytes, name) {
        Ok(automaton) => automaton,
        Err(Refused::Memory) => return Err(Refused::Memory),
        Err(Refused::Because(_)) => return Err(refused()),
    };
    if has_no_tables(&automaton) {
        return Err(refused());
    }
    if !is_written(alloc, bytes, name, &automaton)? {
        return Err(refused());
    }
    let name = Name::new(alloc, name)?;
    Ok(Header { name, automaton })
}

/// A text is the C tables of one name and one automaton only.
pub fn headers_are_read_again()
    ensures { (bytes : List ℕ) (g h : HeaderValue) → IsHeaderOf bytes g → IsHeaderOf bytes h → g ≡ h }
{}
