//! A text that grows: what reports, reactions and canonical files are printed into.
ghost use Rattle.std.specs.Prelude.{◌≡◌, ◌++◌, ℕ, List, [], decimal, OnErr, OnOk};

use itoa::Buffer;
use std::alloc::{AllocError, Global};
use std::marker::Model;

/// A text that grows at its end.
#[derive(Debug, Drop)]
pub struct Line {
    text: Vec<u8>,
}

impl Model for Line {
    ghost Value = { List ℕ };

    ghost view = { λ line. line.text.items };
}

impl Line {
    /// An empty text. No memory is taken.
    pub fn new(alloc: Global) -> Line
        ensures { result ≡ [] }
    {
        Line {
            text: Vec::new(alloc),
        }
    }

    /// Appends the bytes.
    #[inline]
    pub fn text(&mut self, bytes: &[u8]) -> Result<(), AllocError>
        ensures ok { OnOk result (self.new ≡ self.old ++ bytes.now) }
        ensures err { OnErr result (self.new ≡ self.old) }
    {
        self.text.extend_from_slice(bytes)
    }

    /// Appends the number's decimal digits, without a zero in front.
    #[inline]
    pub fn number(&mut self, n: u64) -> Result<(), AllocError>
        ensures ok { OnOk result (self.new ≡ self.old ++ decimal n) }
        ensures err { OnErr result (self.new ≡ self.old) }
    {
        let mut digits = Buffer::new();
        self.text.extend_from_slice(digits.format(n).as_bytes())
    }

    /// The text.
    #[inline]
    pub fn bytes(&self) -> &[u8]
        ensures { result.now ≡ self.now }
    {
        self.text.as_slice()
    }

    /// The text as a vector. No memory is taken.
    pub fn into_bytes(self) -> Vec<u8>
        ensures { result.items ≡ self }
    {
        self.text
    }
}
