//! A word whose first bytes stand beside it, so that a short one is compared by one load.
ghost use Rattle.std.specs.Prelude.{◌≡◌, ◌<◌, ◌^◌, length, min, take, bytes_eq, nat_eq, IfOk};
ghost use Rattle.std.specs.List.{starts_with};

use crate::runs::{WIDTH, same_in};
use rv_model::Name;
use std::alloc::{AllocError, Global};
use std::marker::Model;

/// The word.
#[derive(Drop)]
pub struct HeldWord {
    /// The first bytes of the word, and any behind a short one.
    near: [u8; 16],
    /// How many bytes the word has.
    end: usize,
    word: Name,
}

impl Model for HeldWord {
    ghost use Rattle.std.specs.Prelude.{◌≡◌, ℕ, List, length, min, take};

    ghost Value = { List ℕ };

    ghost view = { λ w. w.word };

    ghost invariant = { λ w. (w.end ≡ length w.word) × (take (min w.end 16) w.near ≡ take 16 w.word) };
}

/// The first bytes of a word, and zeros behind a short one.
fn near_of(bytes: &[u8]) -> [u8; 16]
    ensures { take (min (length bytes.now) WIDTH) result ≡ take WIDTH bytes.now }
{
    let mut near = [0; 16];
    let count = bytes.len().min(WIDTH);
    near[..count].copy_from_slice(&bytes[..count]);
    near
}

impl HeldWord {
    /// The word with these bytes.
    pub fn new(alloc: Global, bytes: &[u8]) -> Result<HeldWord, AllocError>
        ensures { IfOk result (λ held. held ≡ bytes.now) }
    {
        let word = Name::new(alloc, bytes)?;
        Ok(HeldWord {
            near: near_of(bytes),
            end: bytes.len(),
            word,
        })
    }

    /// Its bytes.
    #[inline(always)]
    pub fn bytes(&self) -> &[u8]
        ensures { result.now ≡ self.now }
    {
        self.word.bytes()
    }

    /// How many bytes it has.
    #[inline(always)]
    pub(crate) fn len(&self) -> usize
        ensures len { result ≡ length self.now }
        ensures few { result < 2 ^ 63 }
    {
        self.word.bytes().len()
    }

    /// Whether the text begins with it, byte by byte. Apart from the words that are compared at once, which are most.
    #[inline(never)]
    fn begins_far(&self, text: &[u8]) -> bool
        ensures { result ≡ starts_with nat_eq text.now self.now }
    {
        text.starts_with(self.word.bytes())
    }

    /// Whether the text begins with it. The bytes of a word that one load holds are looked at together, where the text goes on
    /// for a whole load.
    #[inline(always)]
    pub(crate) fn begins(&self, text: &[u8]) -> bool
        ensures { result ≡ starts_with nat_eq text.now self.now }
    {
        if self.end > WIDTH || text.len() < WIDTH {
            return self.begins_far(text);
        }
        same_in(&self.near, text) >= self.end
    }

    /// Whether it has these bytes, byte by byte. Apart from the words that are compared at once, which are most.
    #[inline(never)]
    fn is_far(&self, word: &[u8]) -> bool
        ensures { result ≡ bytes_eq word.now self.now }
    {
        word == self.word.bytes()
    }

    /// Whether it is the word with which the text begins. The bytes that one load holds are looked at together, where the text
    /// goes on for a whole load.
    #[inline(always)]
    pub fn is(&self, word: &[u8], text: &[u8]) -> bool
        requires { take (length word.now) text.now ≡ word.now }
        ensures { result ≡ bytes_eq word.now self.now }
    {
        let end = word.len();
        if end != self.end {
            return false;
        }
        if text.len() < WIDTH {
            return self.is_far(word);
        }
        let same = same_in(&self.near, text);
        if same >= end {
            return true;
        }
        if same < WIDTH {
            return false;
        }
        self.is_far(word)
    }
}
