//! How the next piece of an entry's line is read: as a number or as a name.
ghost use Rattle.std.specs.Prelude.{◌≡◌, ◌≤◌, IfSome};
ghost use Rattle.rv_journal.specs.inner.PieceReadings.{number_in, number_from, first_by, mode_in, kind_in, verb_in, ReadsWords};

use crate::names::{ActVerb, LetterKind, kind_in, mode_in, verb_in};
use rv_model::Mode;
use rv_text::{Pieces, decimal};

/// The number whose decimal text the word is, if it is at most `most`. A text with a zero in front is none.
fn number_in(word: &[u8], most: u64) -> Option<u64>
    ensures value { result ≡ number_in most word.now }
    ensures range { IfSome result (λ n. n ≤ most) }
{
    if word.len() > 1 && word[0] == b'0' {
        return None;
    }
    let number = decimal(word)?;
    if number > most {
        return None;
    }
    Some(number)
}

/// The number that is the next piece, if it is one of at most `most`.
pub(crate) fn next_number(words: &mut Pieces<'_>, most: u64) -> Option<u64>
    ensures number { ReadsWords (number_from most) words.old words.new result }
    ensures range { IfSome result (λ n. n ≤ most) }
{
    let word = words.next_piece()?;
    number_in(word, most)
}

/// The mode that the next piece names.
pub(crate) fn next_mode(words: &mut Pieces<'_>) -> Option<Mode>
    ensures { ReadsWords (first_by mode_in) words.old words.new result }
{
    let word = words.next_piece()?;
    mode_in(word)
}

/// The kind of letter that the next piece names.
pub(crate) fn next_kind(words: &mut Pieces<'_>) -> Option<LetterKind>
    ensures { ReadsWords (first_by kind_in) words.old words.new result }
{
    let word = words.next_piece()?;
    kind_in(word)
}

/// The act that the next piece names, without its numbers.
pub(crate) fn next_verb(words: &mut Pieces<'_>) -> Option<ActVerb>
    ensures { ReadsWords (first_by verb_in) words.old words.new result }
{
    let word = words.next_piece()?;
    verb_in(word)
}
