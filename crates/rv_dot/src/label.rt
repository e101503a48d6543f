//! The events of a label.
ghost use Rattle.std.specs.Prelude.{◌≡◌, ◌≤◌, ◌<◌, ◌+◌, ◌^◌, if◌then◌else◌, length, map, IfOk, IfSome};
ghost use Rattle.std.specs.Option.{option_map};
ghost use Rattle.rv_text.specs.Places.{is_blank};
ghost use Rattle.rv_dot.specs.Labels.{piece_of, without_blanks, kept_len, trimmed, label_events};
ghost use Rattle.rv_dot.specs.inner.Held.{bytes_of};

use crate::runs::pair_len;
use rv_text::ByteClass;
use std::alloc::{AllocError, Global};

/// The bytes from the first on that is no blank.
#[tactic(auto, unfolding(crate::specs::Labels::without_blanks))]
fn without_blanks(bytes: &[u8]) -> &[u8]
    ensures { result.now ≡ without_blanks bytes.now }
{
    let mut rest = bytes;
    while let [first, after @ ..] = rest {
        if !ByteClass::Blank.has(*first) {
            return rest;
        }
        rest = after;
    }
    rest
}

/// How many bytes are kept with the byte at this place.
fn kept_at(kept: usize, place: usize, byte: u8) -> usize
    requires { place + 1 < 2 ^ 64 }
    ensures { result ≡ (if is_blank byte then kept else place + 1) }
{
    if ByteClass::Blank.has(byte) {
        kept
    } else {
        place + 1
    }
}

/// How many bytes stand up to the last that is no blank.
fn kept_len(bytes: &[u8]) -> usize
    ensures value { result ≡ kept_len bytes.now }
    ensures within { result ≤ length bytes.now }
{
    let mut kept = 0;
    for (place, byte) in bytes.iter().enumerate() {
        kept = kept_at(kept, place, *byte);
    }
    kept
}

/// The bytes without the blanks round them.
fn trimmed(bytes: &[u8]) -> &[u8]
    ensures { result.now ≡ trimmed bytes.now }
{
    let front = without_blanks(bytes);
    &front[..kept_len(front)]
}

/// The first piece, without the blanks round it, and the bytes behind the cut.
#[tactic(auto, unfolding(crate::specs::Labels::piece_of))]
fn piece_bytes(label: &[u8]) -> Option<(&[u8], &[u8])>
    ensures value { option_map (λ x. (x.0.now, x.1.now)) result ≡ piece_of label.now }
    ensures within { IfSome result (λ x. length x.1.now < length label.now) }
{
    let len = pair_len(label, b'\\', b'n')?;
    Some((trimmed(&label[..len]), &label[len + 2..]))
}

/// The pieces of a label, cut at each backslash with an `n` behind it, each without the blanks round it.
pub fn label_events<'a>(alloc: Global, label: &'a [u8]) -> Result<Vec<&'a [u8]>, AllocError>
    ensures { IfOk result (λ v. map bytes_of v.items ≡ label_events label.now) }
{
    let mut found = Vec::new(alloc);
    let mut rest = label;
    'pieces: while let Some((piece, after)) = piece_bytes(rest) {
        found.push(piece)?;
        rest = after;
    }
    found.push(trimmed(rest))?;
    Ok(found)
}
