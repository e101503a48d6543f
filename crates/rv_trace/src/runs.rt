//! Where runs of bytes end in a line. Sixteen bytes are looked at together, as long as so many are left.
ghost use Rattle.std.specs.Prelude.{◌≡◌, ◌≢◌, ℕ, ◌<◌, ◌≤◌, ◌+◌, ◌-◌, ◌==◌, not, nat_eq, length, slice_index};
ghost use Rattle.rv_text.specs.Decimal.{number_of};
ghost use Rattle.rv_text.specs.Places.{is_blank, is_digit, has_class, least, run_end, between};
ghost use Rattle.rv_text.specs.declared.runs.ByteClass.TheVariants as kinds;
ghost use Rattle.rv_trace.specs.inner.Runs.{CountsAs, IsRunIn};
ghost use Rattle.rv_trace.specs.Masks.{IsMask, IsPairRun, first_set};
ghost use Rattle.std.specs.Int.{bit_at};

use rv_text::{ByteClass, run_end};
use std::simd::prelude::*;

/// How many bytes are looked at together.
pub const WIDTH: usize = 16;
/// A number is too large for any use of a trace where another digit follows a larger one than this.
const LAST_TENTH: u64 = 429_496_729;
/// A number that is too large for any use of a trace.
const TOO_LARGE: u64 = 4_294_967_296;

/// A run of digits.
#[derive(Clone, Copy, Drop)]
pub(crate) struct Digits {
    /// Where it ends.
    pub end: usize,
    /// The number that it spells, or one that is too large too.
    pub number: u64,
}

/// The byte at a place, or 0 past the end.
#[inline(always)]
pub fn byte_at(text: &[u8], place: usize) -> u8
    ensures value { result ≡ slice_index text.now place }
    ensures inside { 0 < result → place < length text.now }
{
    if place < text.len() { text[place] } else { 0 }
}

/// The place of the lowest bit that is set, or the number of lanes.
#[inline(always)]
pub fn first_set(mask: u64) -> usize
    ensures { result ≡ first_set mask WIDTH }
{
    if mask == 0 {
        WIDTH
    } else {
        mask.trailing_zeros() as usize
    }
}

/// The lowest bit that is set.
#[inline(always)]
pub(crate) fn lowest(mask: u64) -> usize
    requires { mask ≢ 0 }
    ensures bound { result < 64 }
    ensures set { bit_at mask result ≡ 1 }
    ensures below { (k : ℕ) → k < result → bit_at mask k ≡ 0 }
{
    mask.trailing_zeros() as usize
}

/// A bit for each of the next bytes, set at a blank.
#[inline(always)]
pub fn blank_bits(text: &[u8], place: usize) -> u64
    requires { place + WIDTH ≤ length text.now }
    ensures { IsMask is_blank text.now place WIDTH result }
{
    let bytes = u8x16::from_slice(&text[place..]);
    let blanks = bytes.simd_eq(u8x16::splat(b' ')) | bytes.simd_eq(u8x16::splat(b'\t'));
    blanks.to_bitmask()
}

/// A bit for each of the next bytes, set at `=`.
#[inline(always)]
pub(crate) fn equals_bits(text: &[u8], place: usize) -> u64
    requires { place + WIDTH ≤ length text.now }
    ensures { IsMask (λ byte. byte == 61) text.now place WIDTH result }
{
    let bytes = u8x16::from_slice(&text[place..]);
    bytes.simd_eq(u8x16::splat(b'=')).to_bitmask()
}

/// A bit for each of the next bytes, set where it is no digit.
#[inline(always)]
pub(crate) fn other_bits(text: &[u8], place: usize) -> u64
    requires { place + WIDTH ≤ length text.now }
    ensures { IsMask (λ byte. not (is_digit byte)) text.now place WIDTH result }
{
    let bytes = u8x16::from_slice(&text[place..]);
    let others = bytes.simd_lt(u8x16::splat(b'0')) | bytes.simd_gt(u8x16::splat(b'9'));
    others.to_bitmask()
}

/// How many of the first bytes are the same, one after the other.
#[inline(always)]
pub fn same_in(one: &[u8], other: &[u8]) -> usize
    requires one { WIDTH ≤ length one.now }
    requires other { WIDTH ≤ length other.now }
    ensures { IsPairRun nat_eq one.now other.now WIDTH result }
{
    let stops = u8x16::from_slice(one).simd_ne(u8x16::from_slice(other));
    first_set(stops.to_bitmask())
}

/// How many of the next bytes are of the kind, from the first on.
#[inline(always)]
fn run_in(kind: ByteClass, text: &[u8], place: usize) -> usize
    requires { place + WIDTH ≤ length text.now }
    ensures { IsRunIn (has_class kind) text.now place WIDTH result }
{
    match kind {
        ByteClass::Digit => digits_in(text, place),
        ByteClass::Blank => blanks_in(text, place),
        ByteClass::Word => word_in(text, place),
    }
}

/// How many of the next bytes are digits.
#[inline(always)]
fn digits_in(text: &[u8], place: usize) -> usize
    requires { place + WIDTH ≤ length text.now }
    ensures { IsRunIn (has_class kinds.Digit) text.now place WIDTH result }
{
    let bytes = u8x16::from_slice(&text[place..]);
    let stops = bytes.simd_lt(u8x16::splat(b'0')) | bytes.simd_gt(u8x16::splat(b'9'));
    first_set(stops.to_bitmask())
}

/// How many of the next bytes are blanks.
#[inline(always)]
fn blanks_in(text: &[u8], place: usize) -> usize
    requires { place + WIDTH ≤ length text.now }
    ensures { IsRunIn (has_class kinds.Blank) text.now place WIDTH result }
{
    let bytes = u8x16::from_slice(&text[place..]);
    let stops = bytes.simd_ne(u8x16::splat(b' ')) & bytes.simd_ne(u8x16::splat(b'\t'));
    first_set(stops.to_bitmask())
}

/// How many of the next bytes are no blanks.
#[inline(always)]
fn word_in(text: &[u8], place: usize) -> usize
    requires { place + WIDTH ≤ length text.now }
    ensures { IsRunIn (has_class kinds.Word) text.now place WIDTH result }
{
    let bytes = u8x16::from_slice(&text[place..]);
    let stops = bytes.simd_eq(u8x16::splat(b' ')) | bytes.simd_eq(u8x16::splat(b'\t'));
    first_set(stops.to_bitmask())
}

/// The first blank from a place on, from which less than a load is left, or the end.
#[inline(never)]
fn last_word_end(text: &[u8], place: usize) -> usize
    requires low { place ≤ length text.now }
    requires high { length text.now < place + WIDTH }
    ensures value { result ≡ run_end kinds.Word text.now place }
    ensures low { place ≤ result }
    ensures high { result ≤ length text.now }
{
    if text.len() < WIDTH {
        return run_end(ByteClass::Word, text, place);
    }
    let start = text.len() - WIDTH;
    let bits = blank_bits(text, start) >> (place - start);
    if bits == 0 {
        text.len()
    } else {
        place + lowest(bits)
    }
}

/// The first byte from a place on that is not of the kind, from which less than a load is left, or the end.
#[inline(always)]
fn tail_end(kind: ByteClass, text: &[u8], place: usize) -> usize
    requires low { place ≤ length text.now }
    requires high { length text.now < place + WIDTH }
    ensures value { result ≡ run_end kind text.now place }
    ensures low { place ≤ result }
    ensures high { result ≤ length text.now }
{
    match kind {
        ByteClass::Word => last_word_end(text, place),
        _ => run_end(kind, text, place),
    }
}

/// The first byte from `from` on that is not of the kind, or the end.
#[inline(always)]
fn wide_end(kind: ByteClass, text: &[u8], from: usize) -> usize
    requires { from ≤ length text.now }
    ensures value { result ≡ run_end kind text.now from }
    ensures low { from ≤ result }
    ensures high { result ≤ length text.now }
{
    let mut place = from;
    while text.len() - place >= WIDTH {
        let run = run_in(kind, text, place);
        place += run;
        if run < WIDTH {
            return place;
        }
    }
    tail_end(kind, text, place)
}

/// The first blank from `from` on, or the end.
#[inline(always)]
pub(crate) fn word_end(text: &[u8], from: usize) -> usize
    requires { from ≤ length text.now }
    ensures value { result ≡ run_end kinds.Word text.now from }
    ensures low { from ≤ result }
    ensures high { result ≤ length text.now }
{
    wide_end(ByteClass::Word, text, from)
}

/// The first byte from `from` on that is no digit, or the end.
#[inline(always)]
pub(crate) fn digits_end(text: &[u8], from: usize) -> usize
    requires { from ≤ length text.now }
    ensures value { result ≡ run_end kinds.Digit text.now from }
    ensures low { from ≤ result }
    ensures high { result ≤ length text.now }
{
    wide_end(ByteClass::Digit, text, from)
}

/// The same, at more than one blank.
#[inline(always)]
fn far_blanks_end(text: &[u8], from: usize) -> usize
    requires { from ≤ length text.now }
    ensures value { result ≡ run_end kinds.Blank text.now from }
    ensures low { from ≤ result }
    ensures high { result ≤ length text.now }
{
    wide_end(ByteClass::Blank, text, from)
}

/// The first byte from `from` on that is no blank, or the end. Mostly one blank stands there.
#[inline(always)]
pub(crate) fn blanks_end(text: &[u8], from: usize) -> usize
    requires { from ≤ length text.now }
    ensures value { result ≡ run_end kinds.Blank text.now from }
    ensures low { from ≤ result }
    ensures high { result ≤ length text.now }
{
    if !ByteClass::Blank.has(byte_at(text, from)) {
        return from;
    }
    if !ByteClass::Blank.has(byte_at(text, from + 1)) {
        return from + 1;
    }
    far_blanks_end(text, from)
}

/// The same digits, of which those before `end` spell a number that is too large with another one.
#[inline(never)]
fn too_large(text: &[u8], end: usize) -> Digits
    requires { end ≤ length text.now }
    ensures end { result.end ≡ run_end kinds.Digit text.now end }
    ensures low { end ≤ result.end }
    ensures high { result.end ≤ length text.now }
    ensures number { result.number ≡ TOO_LARGE }
{
    Digits {
        end: digits_end(text, end),
        number: TOO_LARGE,
    }
}

/// The digits from `from` on.
#[inline(always)]
pub(crate) fn digits_from(text: &[u8], from: usize) -> Digits
    requires { from ≤ length text.now }
    ensures end { result.end ≡ run_end kinds.Digit text.now from }
    ensures low { from ≤ result.end }
    ensures high { result.end ≤ length text.now }
    ensures number { CountsAs result.number (number_of (between text.now from result.end)) }
{
    let mut end = from;
    let mut number = 0;
    while end < text.len() && ByteClass::Digit.has(text[end]) {
        if number > LAST_TENTH {
            return too_large(text, end);
        }
        number = number * 10 + (text[end] - b'0') as u64;
        end += 1;
    }
    Digits { end, number }
}

/// The same, where as a rule there are three.
#[inline(always)]
pub(crate) fn three_digits_from(text: &[u8], from: usize) -> Digits
    requires { from ≤ length text.now }
    ensures end { result.end ≡ run_end kinds.Digit text.now from }
    ensures low { from ≤ result.end }
    ensures high { result.end ≤ length text.now }
    ensures number { CountsAs result.number (number_of (between text.now from result.end)) }
{
    let end = from + 3;
    if end < text.len()
        && ByteClass::Digit.has(text[from])
        && ByteClass::Digit.has(text[from + 1])
        && ByteClass::Digit.has(text[from + 2])
        && !ByteClass::Digit.has(text[end])
    {
        let tens = (text[from] - b'0') as u64 * 10 + (text[from + 1] - b'0') as u64;
        return Digits {
            end,
            number: tens * 10 + (text[from + 2] - b'0') as u64,
        };
    }
    digits_from(text, from)
}
