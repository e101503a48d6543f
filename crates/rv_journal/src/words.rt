//! Counted words: a count in the low 32 bits, and an instance's word, in 32 bits, above it.
ghost use Rattle.std.specs.Prelude.{◌≡◌, ◌≤◌, ◌<◌, ◌+◌, ◌^◌, ◌==◌, if◌then◌else◌};
ghost use Rattle.rv_journal.specs.CountedWords.{FitsCountedWord};
ghost use Rattle.rv_journal.specs.inner.CountedWords.{counted_word, word_in, count_in};

use rv_word::{atoms_of, pack, set_of};

/// How many bits the two parts of a monitor's words take: one for each row of its table, row 0 too, and one for the
/// level of each atom.
#[derive(Clone, Copy, Debug, Drop, PartialEq, Eq)]
pub struct Width {
    pub rows: u8,
    pub atoms: u8,
}

/// The bits of a counted word that are its count.
pub(crate) const COUNT: u64 = 0xffff_ffff;

/// An instance's word in 32 bits, its levels above its set of rows, with a count below it.
pub(crate) fn counted_word(rows: u32, word: u64, count: u32) -> u64
    requires rows { rows ≤ 32 }
    requires narrow { FitsCountedWord rows word }
    ensures { result ≡ counted_word rows word count }
{
    let narrow = ((atoms_of(word) as u64) << rows) + set_of(word) as u64;
    (narrow << 32) + count as u64
}

pub(crate) fn word_in(rows: u32, counted: u64) -> u64
    requires { rows ≤ 32 }
    ensures { result ≡ word_in rows counted }
{
    let narrow = counted >> 32;
    let set = narrow & ((1 << rows) - 1);
    pack(set as u32, (narrow >> rows) as u32)
}

pub(crate) fn count_in(counted: u64) -> u32
    ensures { result ≡ count_in counted }
{
    (counted & COUNT) as u32
}

/// The count after a delivery that found one word and left another.
pub(crate) fn count_after(count: u32, before: u64, after: u64) -> u32
    requires { count + 1 < 2 ^ 32 }
    ensures { result ≡ count + (if before == after then 0 else 1) }
{
    if before == after { count } else { count + 1 }
}
