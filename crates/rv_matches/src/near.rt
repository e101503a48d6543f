//! The names of a trace that come nearest to one of the bindings, by Levenshtein's distance over bytes.
ghost use Rattle.std.specs.Prelude.{◌≡◌, ◌<◌, ◌≤◌, ◌++◌, ℕ, List, length, map, min, slice_get, take, IfOk, IfSome, OnOk};
ghost use Rattle.rv_matches.specs.Nearest.{distance, edits, nearest, nears_at, own_name, reach};
ghost use Rattle.rv_matches.specs.inner.NamesNear.{IsAsNear, near_at};

use crate::words::{CountedWords, LONGEST};
use rv_model::Name;
use rv_text::Pieces;
use std::alloc::{AllocError, Global};
use strsim::generic_levenshtein;

/// How many names are told at most.
pub const MOST_NEAR: usize = 3;
/// The greatest distance of a name that is told.
pub const FARTHEST: usize = 3;

/// A name of the trace, the number of its lines, and its distance.
#[derive(Drop)]
pub struct Near {
    pub name: Name,
    pub lines: u64,
    pub distance: usize,
}

/// What stands behind the last colon.
fn own_name(name: &[u8]) -> &[u8]
    ensures { result.now ≡ own_name name.now }
{
    let mut pieces = Pieces::new(b':', name);
    let mut last: &[u8] = b"";
    while let Some(piece) = pieces.next_piece() {
        last = piece;
    }
    last
}

/// How many bytes have to be put in, taken out or replaced to make the one the other.
fn edits(alloc: Global, one: &[u8], other: &[u8]) -> Result<usize, AllocError>
    ensures { IfOk result (λ n. n ≡ edits one.now other.now) }
{
    generic_levenshtein(alloc, one, other)
}

/// The edits, or so many where even the lengths differ by as many.
fn near_edits(alloc: Global, one: &[u8], other: &[u8], far: usize) -> Result<usize, AllocError>
    ensures { IfOk result (IsAsNear far (edits one.now other.now)) }
{
    if one.len().abs_diff(other.len()) >= far {
        return Ok(far);
    }
    edits(alloc, one, other)
}

/// The least number of edits, where of each name its own part may stand for the whole.
fn distance(
    alloc: Global,
    one: &[u8],
    own: &[u8],
    other: &[u8],
    far: usize,
) -> Result<usize, AllocError>
    requires { own.now ≡ own_name one.now }
    ensures { IfOk result (IsAsNear far (distance one.now other.now)) }
{
    let its = own_name(other);
    let whole = near_edits(alloc, one, other, far)?;
    if own == one && its == other {
        return Ok(whole);
    }
    let whole = whole.min(near_edits(alloc, one, its, far)?);
    let part = near_edits(alloc, own, other, far)?.min(near_edits(alloc, own, its, far)?);
    Ok(whole.min(part))
}

/// The greatest distance that is near to an event.
fn reach(event: &[u8]) -> usize
    ensures { result ≡ reach event.now }
{
    (own_name(event).len() / 3).min(FARTHEST)
}

/// The distance of each name, up to the one that is too far.
fn distances(
    alloc: Global,
    event: &[u8],
    names: &CountedWords,
    far: usize,
) -> Result<Vec<usize>, AllocError>
    ensures { IfOk result (λ list. map (λ near. min near far) list.items ≡ map (λ counted. min (distance event.now counted.0) far) names.now.words) }
{
    let own = own_name(event);
    let mut list = Vec::with_capacity(alloc, names.len())?;
    for place in 0..names.len() {
        list.push(distance(alloc, event, own, names.word(place), far)?)?;
    }
    Ok(list)
}

/// The name at a place too, if this is its distance, as long as there are too few.
fn add_near(
    alloc: Global,
    names: &CountedWords,
    place: usize,
    distance: usize,
    far: usize,
    found: &mut Vec<Near>,
) -> Result<(), AllocError>
    requires place { place < length names.now.words }
    requires few { length found.old.items ≤ MOST_NEAR }
    ensures added { OnOk result (IfSome (slice_get names.now.words place) (λ counted. found.new.items ≡ take MOST_NEAR (found.old.items ++ near_at counted distance far))) }
    ensures few { length found.new.items ≤ MOST_NEAR }
{
    if distance != far || found.len() >= MOST_NEAR {
        return Ok(());
    }
    let name = Name::new(alloc, names.word(place))?;
    let lines = names.count(place);
    found.push(Near {
        name,
        lines,
        distance,
    })?;
    Ok(())
}

/// The names at a distance too, as long as there are too few.
fn add_far(
    alloc: Global,
    names: &CountedWords,
    distances: &[usize],
    far: usize,
    found: &mut Vec<Near>,
) -> Result<(), AllocError>
    requires many { length distances.now ≡ length names.now.words }
    requires few { length found.old.items ≤ MOST_NEAR }
    ensures added { OnOk result ((event : List ℕ) (least : ℕ) → far < least → map (λ near. min near least) distances.now ≡ map (λ counted. min (distance event counted.0) least) names.now.words → found.new.items ≡ take MOST_NEAR (found.old.items ++ nears_at event names.now.words far)) }
    ensures few { length found.new.items ≤ MOST_NEAR }
{
    for place in 0..distances.len() {
        add_near(alloc, names, place, distances[place], far, found)?;
    }
    Ok(())
}

/// The nearest names, of equal distance by first appearance.
pub fn nearest(alloc: Global, event: &[u8], names: &CountedWords) -> Result<Vec<Near>, AllocError>
    ensures { IfOk result (λ near. near.items ≡ nearest event.now names.now.words) }
{
    let mut found = Vec::new(alloc);
    if event.len() > LONGEST {
        return Ok(found);
    }
    let far = reach(event) + 1;
    let distances = distances(alloc, event, names, far)?;
    for far in 0..far {
        add_far(alloc, names, distances.as_slice(), far, &mut found)?;
    }
    Ok(found)
}
