//! One step of one word: its high half is a set of rows, its low half the levels.
ghost use Rattle.std.specs.Prelude.{◌≡◌};
ghost use Rattle.rv_core.specs.Advance.{FitsTable, WhatFits, advanced};

use crate::turn::{letter_by, levels_after, turn};
use rv_model::{Answer, Hit};
use rv_table::Table;
use rv_word::{atoms_of, pack, set_of};

/// The next word and the answer.
#[derive(Clone, Copy, Drop)]
pub struct Step {
    pub word: u64,
    pub answer: Answer,
}

/// The next word and the answer to a hit.
#[inline(always)]
pub fn advance(table: &Table, word: u64, hit: &Hit) -> Step
    requires { FitsTable table.now hit.now }
    ensures answer { result.answer ≡ (advanced table.now word hit.now).0 }
    ensures word { result.word ≡ (advanced table.now word hit.now).1 }
    ensures fits { WhatFits hit.now.what }
{
    let levels = levels_after(&hit.what, atoms_of(word));
    let letter = letter_by(&hit.what, levels);
    let set = set_of(word);
    if set == 0 {
        return Step {
            word,
            answer: Answer::Passed,
        };
    }
    let turned = turn(table, set, hit.mode, letter);
    Step {
        word: pack(turned.set, levels),
        answer: turned.answer,
    }
}
