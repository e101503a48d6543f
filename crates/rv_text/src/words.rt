//! The words of a line, one at a time: the longest runs of bytes that are no blanks.
ghost use Rattle.std.specs.Prelude.{◌≡◌, ◌<◌, ◌≤◌, ◌||◌, ℕ, List, [], ◌∷◌, length, slice_index, true, IfSome, IfNone};
ghost use Rattle.rv_text.specs.Places.{is_blank};
ghost use Rattle.rv_text.specs.Words.{is_word_start, words_from, words_of};

use crate::runs::{ByteClass, run_end};
use std::marker::Model;

/// The words of a line that were not yet given.
#[derive(Debug, Drop)]
pub struct Words<'a> {
    text: &'a [u8],
    place: usize,
}

impl<'a> Model for Words<'a> {
    ghost Value = { List (List ℕ) };

    ghost view = { λ words. words_from words.text.now words.place };

    ghost invariant = { λ words. (words.place ≤ length words.text.now)
        × (words.place < length words.text.now →
        (is_blank (slice_index words.text.now words.place) || is_word_start words.text.now words.place) ≡ true) };
}

impl<'a> Words<'a> {
    /// At the first word of the line.
    #[tactic(auto, unfolding(crate::specs::Words::words_of))]
    pub fn new(text: &'a [u8]) -> Words<'a>
        ensures { result ≡ words_of text.now }
    {
        Words { text, place: 0 }
    }

    /// The next word, where there is one.
    pub fn next_word(&mut self) -> Option<&'a [u8]>
        ensures some { IfSome result (λ word. self.old ≡ word.now ∷ self.new) }
        ensures none { IfNone result ((self.old ≡ []) × (self.new ≡ [])) }
    {
        let text = self.text;
        let from = run_end(ByteClass::Blank, text, self.place);
        if from == text.len() {
            self.place = from;
            return None;
        }
        let to = run_end(ByteClass::Word, text, from);
        self.place = to;
        Some(&text[from..to])
    }
}
