//! Where the words of a board stand (this project's choice: docs/DECISIONS.md, "Few words stand in cache lines of their
//! own").
ghost use Rattle.std.specs.Prelude.{ℕ, ◌≡◌, ◌<◌, ◌≤◌, ◌+◌, IfOk, length};
ghost use Rattle.rv_board.specs.declared.spacing.TheConstants.{SPREAD_SLOTS};
ghost use Rattle.rv_board.specs.Places.{place_of, room_of, AreLinesApart, ArePlaced};

use std::alloc::{AllocError, Global};
use std::marker::Model;

/// How many words a cache line of 64 bytes holds.
pub const LINE_WORDS: usize = 8;

/// The most slots whose words stand in cache lines of their own.
pub const SPREAD_SLOTS: u32 = 4096;

/// The places of the words of a board: a cache line apart where the slots are few, and else one after another. Contracts
/// see how many slots there are.
#[derive(Drop)]
pub struct Spacing {
    slots: u32,
    stride: usize,
}

impl Model for Spacing {
    ghost use Rattle.std.specs.Prelude.{◌≡◌, ℕ};
    ghost use Rattle.rv_board.specs.Places.{stride_of};

    ghost Value = { ℕ };

    ghost view = { λ s. s.slots };

    ghost invariant = { λ s. s.stride ≡ stride_of s.slots };
}

impl Spacing {
    /// The spacing of a board with so many slots.
    pub fn of(slots: u32) -> Spacing
        ensures { result ≡ slots }
    {
        let stride = if slots <= SPREAD_SLOTS { LINE_WORDS } else { 1 };
        Spacing { slots, stride }
    }

    /// The place of a slot's word, which is that of no other word. The switches stand at place 0.
    pub fn place(&self, slot: u32) -> usize
        requires { slot < self.now }
        ensures place { result ≡ place_of self.now (slot + 1) }
        ensures range { result < room_of self.now }
        ensures own { (index : ℕ) → place_of self.now index ≡ result → index ≡ slot + 1 }
        ensures lines { self.now ≤ SPREAD_SLOTS → AreLinesApart self.now (slot + 1) }
    {
        self.stride * (slot as usize + 1)
    }

    /// The words at their places, from the switches and the word of each slot. Between them is 0.
    pub fn spread(&self, alloc: Global, words: Vec<u64>) -> Result<Vec<u64>, AllocError>
        requires { length words.items ≡ self.now + 1 }
        ensures { IfOk result (λ placed. ArePlaced self.now words.items placed.items) }
    {
        if self.stride == 1 {
            return Ok(words);
        }
        let mut placed = Vec::new(alloc);
        placed.resize(self.stride * words.len(), 0)?;
        for index in 0..words.len() {
            placed[self.stride * index] = words[index];
        }
        Ok(placed)
    }
}
