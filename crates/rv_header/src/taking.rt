//! The pieces of a text, and what stands in them.
ghost use Rattle.std.specs.Prelude.{◌≡◌, IfOk, map, slice_index_or, [], drop, nat_le, length};
ghost use Rattle.std.specs.List.{list_all};
ghost use Rattle.rv_dot.specs.inner.Held.{bytes_of};
ghost use Rattle.rv_header.specs.inner.Taking.{pieces, piece_from, quoted_in, members_in, seconds};

use std::alloc::{AllocError, Global};

/// The most bytes of the name of a state or an event.
const MOST_BYTES: usize = 64;

/// The pieces that the mark cuts the text into.
pub(crate) fn pieces<'a>(
    alloc: Global,
    text: &'a [u8],
    mark: u8,
) -> Result<Vec<&'a [u8]>, AllocError>
    ensures { IfOk result (λ found. map bytes_of found.items ≡ pieces mark text.now) }
{
    text.split(|byte| *byte == mark).collect(alloc)
}

/// The text at this place, or an empty one.
pub(crate) fn text_at<'a>(texts: &[&'a [u8]], place: usize) -> &'a [u8]
    ensures { result.now ≡ slice_index_or (map bytes_of texts.now) place [] }
{
    if place < texts.len() {
        texts[place]
    } else {
        b""
    }
}

/// One of the pieces, or an empty one.
#[tactic(auto, unfolding(crate::specs::inner::Taking::piece_from))]
pub(crate) fn piece_from<'a>(
    alloc: Global,
    text: &'a [u8],
    mark: u8,
    place: usize,
) -> Result<&'a [u8], AllocError>
    ensures { IfOk result (λ found. found.now ≡ piece_from mark place text.now) }
{
    let found = pieces(alloc, text, mark)?;
    Ok(text_at(&found, place))
}

/// Every second text.
fn seconds<'a>(alloc: Global, texts: &[&'a [u8]]) -> Result<Vec<&'a [u8]>, AllocError>
    ensures { IfOk result (λ found. map bytes_of found.items ≡ seconds (map bytes_of texts.now)) }
{
    let mut found = Vec::new(alloc);
    let mut rest = texts;
    while let [_, second, later @ ..] = rest {
        found.push(*second)?;
        rest = later;
    }
    Ok(found)
}

/// What stands between quotes.
#[tactic(auto, unfolding(crate::specs::inner::Taking::quoted_in))]
pub(crate) fn quoted_in<'a>(alloc: Global, text: &'a [u8]) -> Result<Vec<&'a [u8]>, AllocError>
    ensures { IfOk result (λ found. map bytes_of found.items ≡ quoted_in text.now) }
{
    let texts = pieces(alloc, text, b'"')?;
    seconds(alloc, &texts)
}

/// The members of a list.
#[tactic(auto, unfolding(crate::specs::inner::Taking::members_in))]
pub(crate) fn members_in<'a>(alloc: Global, text: &'a [u8]) -> Result<Vec<&'a [u8]>, AllocError>
    ensures { IfOk result (λ found. map bytes_of found.items ≡ members_in text.now) }
{
    let texts = pieces(alloc, text, b',')?;
    let mut found = Vec::new(alloc);
    'texts: for text in &texts {
        found.push(piece_from(alloc, *text, b' ', 1)?)?;
    }
    Ok(found)
}

/// The text behind so many bytes.
pub(crate) fn behind(text: &[u8], count: usize) -> &[u8]
    ensures { result.now ≡ drop count text.now }
{
    if count <= text.len() {
        &text[count..]
    } else {
        b""
    }
}

/// The texts behind the first two.
pub(crate) fn behind_two<'s, 'a>(texts: &'s [&'a [u8]]) -> &'s [&'a [u8]]
    ensures { map bytes_of result.now ≡ drop 2 (map bytes_of texts.now) }
{
    match texts {
        [_, _, later @ ..] => later,
        _ => &[],
    }
}

/// Whether no name is longer than that of a state or an event may be.
pub(crate) fn are_short(names: &[&[u8]]) -> bool
    ensures { result ≡ list_all (λ name. nat_le (length name) 64) (map bytes_of names.now) }
{
    let mut rest = names;
    while let [name, later @ ..] = rest {
        if name.len() > MOST_BYTES {
            return false;
        }
        rest = later;
    }
    true
}
