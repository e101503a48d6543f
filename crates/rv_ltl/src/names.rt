//! The names of a file, ascending by bytes, each once.

ghost use Rattle.std.specs.Prelude.{◌≡◌, ℕ, List, map, IfOk, option_map};
ghost use Rattle.std.specs.Cmp.Lexicographic.{slice_cmp};
ghost use Rattle.std.specs.Ordering.{nat_cmp};
ghost use Rattle.rv_ltl.specs.inner.Texts.{texts};
ghost use Rattle.rv_text.specs.inner.Ascending.{Ascends};
ghost use Rattle.rv_ltl.specs.Names.{is_upper, is_atom_byte, all_name_bytes, is_atom_name, names_of, place_in};

use std::alloc::{AllocError, Global};
use std::collections::BTreeSet;

fn is_upper(byte: u8) -> bool
    ensures { result ≡ is_upper byte }
{
    64 < byte && byte < 91
}

fn is_atom_byte(byte: u8) -> bool
    ensures { result ≡ is_atom_byte byte }
{
    is_upper(byte) || (47 < byte && byte < 58) || byte == 95
}

fn all_name_bytes(bytes: &[u8]) -> bool
    ensures { result ≡ all_name_bytes bytes.now }
{
    let mut rest = bytes;
    while let [byte, others @ ..] = rest {
        if !is_atom_byte(*byte) {
            return false;
        }
        rest = others;
    }
    true
}

fn is_atom_name(word: &[u8]) -> bool
    ensures { result ≡ is_atom_name word.now }
{
    match word {
        [] => false,
        [first, rest @ ..] => is_upper(*first) && all_name_bytes(rest),
    }
}

fn gathered<'a>(alloc: Global, pieces: &[&'a [u8]]) -> Result<BTreeSet<&'a [u8]>, AllocError>
    ensures { IfOk result (λ set. texts set.keys ≡ names_of (texts pieces.now)) }
{
    let mut set = BTreeSet::new(alloc);
    'pieces: for piece in pieces {
        if is_atom_name(piece) {
            set.insert(*piece)?;
        }
    }
    Ok(set)
}

/// The names among the pieces, ascending by bytes, each once.
pub fn names<'a>(alloc: Global, pieces: &[&'a [u8]]) -> Result<Vec<&'a [u8]>, AllocError>
    ensures { IfOk result (λ v. texts v.items ≡ names_of (texts pieces.now)) }
{
    let set = gathered(alloc, pieces)?;
    set.into_iter().collect(alloc)
}

/// The word's place among the names.
pub fn find(names: &[&[u8]], word: &[u8]) -> Option<usize>
    requires { Ascends (slice_cmp nat_cmp) (texts names.now) }
    ensures { result ≡ place_in (texts names.now) word.now }
{
    match names.binary_search(&word) {
        Ok(place) => Some(place),
        Err(_) => None,
    }
}
