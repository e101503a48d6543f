//! Where a byte stands in a text. Many bytes are looked at together, as long as so many are left.
ghost use Rattle.std.specs.Prelude.{◌≡◌, ◌<◌, ◌≤◌, ◌+◌, ◌-◌, ◌==◌, length, slice_index, IfSome, IfNone};
ghost use Rattle.rv_text.specs.Places.{least};

use std::simd::prelude::*;

/// How many bytes are looked at together.
const WIDTH: usize = 32;

/// How many bytes are near.
const NEAR: usize = 128;

/// The first of the next places that has the byte.
#[inline(always)]
fn next_of(byte: u8, text: &[u8], place: usize) -> Option<usize>
    requires { place + WIDTH ≤ length text.now }
    ensures value { IfSome result (λ found. found ≡ least (λ k. slice_index text.now k == byte) place WIDTH) }
    ensures some { IfSome result (λ found. found < place + WIDTH) }
    ensures none { IfNone result (least (λ k. slice_index text.now k == byte) place WIDTH ≡ place + WIDTH) }
{
    let bytes = u8x32::from_slice(&text[place..]);
    let found = bytes.simd_eq(u8x32::splat(byte)).to_bitmask();
    if found == 0 {
        return None;
    }
    Some(place + found.trailing_zeros() as usize)
}

/// The first place from `from` on that has the byte, where it is near. Of a place that is not near nothing is said.
#[inline(always)]
pub(crate) fn near_byte(byte: u8, text: &[u8], from: usize) -> Option<usize>
    requires { from ≤ length text.now }
    ensures value { IfSome result (λ found. found ≡ least (λ k. slice_index text.now k == byte) from (length text.now - from)) }
    ensures low { IfSome result (λ found. from ≤ found) }
    ensures high { IfSome result (λ found. found < length text.now) }
{
    if text.len() - from < NEAR {
        return None;
    }
    let mut place = from;
    while place + WIDTH <= from + NEAR {
        if let Some(found) = next_of(byte, text, place) {
            return Some(found);
        }
        place += WIDTH;
    }
    None
}

/// The first place from `from` on that has the byte, or the end.
#[inline(always)]
pub fn find_byte(byte: u8, text: &[u8], from: usize) -> usize
    requires { from ≤ length text.now }
    ensures value { result ≡ least (λ k. slice_index text.now k == byte) from (length text.now - from) }
    ensures low { from ≤ result }
    ensures high { result ≤ length text.now }
{
    let mut place = from;
    while text.len() - place >= WIDTH {
        if let Some(found) = next_of(byte, text, place) {
            return found;
        }
        place += WIDTH;
    }
    while place < text.len() && text[place] != byte {
        place += 1;
    }
    place
}
