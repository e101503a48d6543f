//! The parts of a trace line: behind its head stand a timestamp, the name of an event, and the fields.
ghost use Rattle.std.specs.Prelude.{◌≡◌, ◌≢◌, ◌<◌, ◌≤◌, ◌+◌, ◌||◌, ◌==◌, ℕ, not, length, slice_index, IfSome, option_map};
ghost use Rattle.rv_text.specs.Places.{is_blank, is_digit, run_end};
ghost use Rattle.rv_text.specs.declared.runs.ByteClass.TheVariants as kinds;
ghost use Rattle.rv_trace.specs.Lines.{word_at, is_stamp, stamp_end, event_part, parts_of};
ghost use Rattle.rv_trace.specs.inner.LineParts.{HasHeadNumbers, is_that_end, end_from};
ghost use Rattle.rv_trace.specs.Masks.{IsMask};

use crate::head::{Head, find_head};
use crate::runs::{WIDTH, blanks_end, byte_at, digits_end, lowest, other_bits, word_end};
use rv_text::ByteClass;

/// A piece of the line, by its places.
#[derive(Clone, Copy, Drop)]
pub struct LinePart {
    pub from: usize,
    pub to: usize,
}

/// What a line that can be read has: a head and the name of an event.
#[derive(Clone, Copy, Drop)]
pub struct Parts {
    pub head: Head,
    pub name: LinePart,
}

/// The parts of a line, with the numbers of its head.
#[derive(Clone, Copy, Drop)]
pub struct ReadParts {
    pub parts: Parts,
    /// The PID, where it is one.
    pub pid: u64,
    /// The CPU, where it is one.
    pub cpu: u64,
}

/// The first word from a place on.
#[inline(always)]
#[tactic(auto, unfolding(crate::specs::Lines::word_at))]
fn word_at(text: &[u8], place: usize) -> LinePart
    requires { place ≤ length text.now }
    ensures value { result ≡ word_at text.now place }
    ensures low { place ≤ result.from }
    ensures order { result.from ≤ result.to }
    ensures high { result.to ≤ length text.now }
{
    let from = blanks_end(text, place);
    let to = word_end(text, from);
    LinePart { from, to }
}

/// Where the digits end that begin here, by the bits of the bytes that are none.
#[inline(always)]
fn near_end(text: &[u8], from: usize, others: u64) -> usize
    requires mask { IsMask (λ byte. not (is_digit byte)) text.now from WIDTH others }
    requires within { from + WIDTH ≤ length text.now }
    requires some { others ≢ 0 }
    ensures value { result ≡ run_end kinds.Digit text.now from }
    ensures low { from ≤ result }
    ensures high { result < from + WIDTH }
{
    from + lowest(others)
}

/// Where the digits end that begin behind a point. The bits are those of the bytes from a place before it that are no digits.
#[inline(always)]
fn part_end(text: &[u8], from: usize, others: u64, point: usize) -> usize
    requires mask { IsMask (λ byte. not (is_digit byte)) text.now from WIDTH others }
    requires within { from + WIDTH ≤ length text.now }
    requires low { from ≤ point }
    requires high { point < from + WIDTH }
    ensures value { result ≡ run_end kinds.Digit text.now (point + 1) }
    ensures low { point + 1 ≤ result }
    ensures high { result ≤ length text.now }
{
    let rest = others >> (point + 1 - from);
    if rest == 0 {
        return digits_end(text, point + 1);
    }
    point + 1 + lowest(rest)
}

/// The place behind a timestamp, whatever stands there, by the ends of its digits: of the first ones, and of those that begin
/// behind the next byte.
#[inline(always)]
#[tactic(auto, unfolding(crate::specs::Lines::is_stamp))]
fn behind_digits(text: &[u8], from: usize, whole: usize, part: usize) -> Option<usize>
    requires whole { whole ≡ run_end kinds.Digit text.now from }
    requires some { from < whole }
    requires within { whole < length text.now }
    requires part { part ≡ run_end kinds.Digit text.now (whole + 1) }
    requires low { whole + 1 ≤ part }
    requires high { part ≤ length text.now }
    ensures value { (to : ℕ) → is_stamp text.now (record { from = from; to = to }) ≡ is_that_end result to }
    ensures high { IfSome result (λ end. end ≤ length text.now) }
{
    match text[whole] {
        b':' => Some(whole + 1),
        b'.' => {
            if part > whole + 1 && byte_at(text, part) == b':' {
                Some(part + 1)
            } else {
                None
            }
        }
        _ => None,
    }
}

/// The place behind the timestamp that begins here, whatever stands there. One load has most of them whole.
#[inline(always)]
#[tactic(auto, unfolding(crate::specs::Lines::is_stamp))]
fn behind_stamp(text: &[u8], from: usize) -> Option<usize>
    requires { from ≤ length text.now }
    ensures value { (to : ℕ) → is_stamp text.now (record { from = from; to = to }) ≡ is_that_end result to }
    ensures high { IfSome result (λ end. end ≤ length text.now) }
{
    if text.len() - from < WIDTH {
        return behind_far_stamp(text, from);
    }
    let others = other_bits(text, from);
    if others == 0 {
        return behind_far_stamp(text, from);
    }
    let whole = near_end(text, from, others);
    if whole == from {
        return None;
    }
    let part = part_end(text, from, others, whole);
    behind_digits(text, from, whole, part)
}

/// The same, at the end of a line, or of more digits.
#[inline(never)]
#[tactic(auto, unfolding(crate::specs::Lines::is_stamp))]
fn behind_far_stamp(text: &[u8], from: usize) -> Option<usize>
    requires { from ≤ length text.now }
    ensures value { (to : ℕ) → is_stamp text.now (record { from = from; to = to }) ≡ is_that_end result to }
    ensures high { IfSome result (λ end. end ≤ length text.now) }
{
    let whole = digits_end(text, from);
    if whole == from || whole == text.len() {
        return None;
    }
    let part = digits_end(text, whole + 1);
    behind_digits(text, from, whole, part)
}

/// Whether no word goes on here.
fn is_word_end(text: &[u8], place: usize) -> bool
    requires { place ≤ length text.now }
    ensures { result ≡ (place == length text.now || is_blank (slice_index text.now place)) }
{
    place >= text.len() || ByteClass::Blank.has(text[place])
}

/// Where the timestamp ends that is the word that begins here.
#[inline(always)]
fn stamp_from(text: &[u8], from: usize) -> Option<usize>
    requires { from ≤ length text.now }
    ensures value { result ≡ end_from text.now from }
    ensures high { IfSome result (λ end. end ≤ length text.now) }
{
    let end = behind_stamp(text, from)?;
    if is_word_end(text, end) {
        Some(end)
    } else {
        None
    }
}

#[inline(always)]
#[tactic(auto, unfolding(crate::specs::Lines::stamp_end))]
fn stamp_end(text: &[u8], place: usize) -> Option<usize>
    requires { place ≤ length text.now }
    ensures value { result ≡ stamp_end text.now place }
    ensures high { IfSome result (λ end. end ≤ length text.now) }
{
    let first = blanks_end(text, place);
    if let Some(end) = stamp_from(text, first) {
        return Some(end);
    }
    second_stamp(text, first)
}

/// Where the timestamp ends that is the word behind the one that begins here.
#[inline(always)]
fn second_stamp(text: &[u8], first: usize) -> Option<usize>
    requires { first ≤ length text.now }
    ensures value { result ≡ end_from text.now (run_end kinds.Blank text.now (run_end kinds.Word text.now first)) }
    ensures high { IfSome result (λ end. end ≤ length text.now) }
{
    let second = blanks_end(text, word_end(text, first));
    stamp_from(text, second)
}

#[inline(always)]
#[tactic(auto, unfolding(crate::specs::Lines::event_part))]
fn event_part(text: &[u8], place: usize) -> Option<LinePart>
    requires { place ≤ length text.now }
    ensures value { result ≡ event_part text.now place }
    ensures order { IfSome result (λ name. name.from ≤ name.to) }
    ensures high { IfSome result (λ name. name.to < length text.now) }
{
    let word = word_at(text, place);
    if word.to > word.from + 1 && text[word.to - 1] == b':' {
        Some(LinePart {
            from: word.from,
            to: word.to - 1,
        })
    } else {
        None
    }
}

#[inline(always)]
#[tactic(auto, unfolding(crate::specs::Lines::parts_of))]
pub fn parts_of(text: &[u8]) -> Option<ReadParts>
    ensures value { option_map (λ found. found.parts) result ≡ parts_of text.now }
    ensures numbers { IfSome result (λ found. HasHeadNumbers text.now found.parts.head found.pid found.cpu) }
    ensures order { IfSome result (λ found. found.parts.name.from ≤ found.parts.name.to) }
    ensures high { IfSome result (λ found. found.parts.name.to < length text.now) }
{
    let told = find_head(text)?;
    let place = stamp_end(text, told.head.close + 2)?;
    let name = event_part(text, place)?;
    Some(ReadParts {
        parts: Parts {
            head: told.head,
            name,
        },
        pid: told.pid,
        cpu: told.cpu,
    })
}
