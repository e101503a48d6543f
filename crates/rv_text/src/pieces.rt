//! The pieces of a text, one at a time: what stands between the bytes that part it.
ghost use Rattle.std.specs.Prelude.{◌≡◌, [], ◌∷◌, ℕ, List, IfSome, IfNone};
ghost use Rattle.rv_text.specs.Pieces.{pieces_by};

use memchr::memchr;
use std::marker::Model;

/// The pieces that were not yet given.
#[derive(Debug, Drop)]
pub struct Pieces<'a> {
    separator: u8,
    /// What is behind the last separator that was passed; none behind the last piece.
    text: Option<&'a [u8]>,
}

impl<'a> Model for Pieces<'a> {
    ghost use Rattle.std.specs.Prelude.{ℕ, List, option_copied};
    ghost use Rattle.rv_text.specs.Pieces.{pieces_left};

    ghost Value = { List (List ℕ) };

    ghost view = { λ pieces. pieces_left pieces.separator (option_copied pieces.text) };
}

impl<'a> Pieces<'a> {
    /// At the first piece of the text.
    pub fn new(separator: u8, text: &'a [u8]) -> Pieces<'a>
        ensures { result ≡ pieces_by separator text.now }
    {
        Pieces {
            separator,
            text: Some(text),
        }
    }

    /// The next piece, where there is one.
    pub fn next_piece(&mut self) -> Option<&'a [u8]>
        ensures some { IfSome result (λ piece. self.old ≡ piece.now ∷ self.new) }
        ensures none { IfNone result ((self.old ≡ []) × (self.new ≡ [])) }
    {
        let text = self.text?;
        match memchr(self.separator, text) {
            Some(end) => {
                self.text = Some(&text[end + 1..]);
                Some(&text[..end])
            }
            None => {
                self.text = None;
                Some(text)
            }
        }
    }
}
