//! What an act makes of its word.
ghost use Rattle.std.specs.Prelude.{◌≡◌, ◌<◌, ◌^◌, sum};
ghost use Rattle.rv_model.specs.declared.entry.Act.TheVariants.{Deliver};
ghost use Rattle.rv_model.specs.Setups.{monitor_of, start_of};
ghost use Rattle.rv_word.specs.Words.{packed};
ghost use Rattle.rv_core.specs.Advance.{WhatFits, acted};
ghost use Rattle.rv_core.specs.Setup.{FitsAct, ActFits, word_index, table_at, table_of_act, start_of_act};

use crate::setup::Setup;
use crate::word::{Step, advance};
use rv_model::{Act, Answer, Hit};
use rv_word::STOPPED;

/// The place of an act's word: the switches, and then a word for each slot.
#[inline(always)]
pub fn word_index(act: &Act) -> usize
    ensures { result ≡ word_index act.now }
{
    match *act {
        Act::Deliver { slot, .. } => slot as usize + 1,
        Act::Stop { slot } => slot as usize + 1,
        Act::Clear { slot } => slot as usize + 1,
        Act::End { slot } => slot as usize + 1,
        Act::Look | Act::Raise { .. } | Act::Lower { .. } => 0,
    }
}

/// The slot waits, with its starting levels.
fn opened(setup: &Setup, slot: u32, answer: Answer) -> Step
    requires { slot < sum setup.now.shape }
    ensures answer { result.answer ≡ answer }
    ensures word { result.word ≡ packed 1 (start_of setup.now slot) }
    ensures fits { start_of setup.now slot < 2 ^ 32 }
{
    Step {
        word: setup.opening(slot),
        answer,
    }
}

/// The word after a delivery to a slot of this monitor, and the answer.
#[inline(always)]
pub(crate) fn deliver_on(setup: &Setup, monitor: u8, slot: u32, word: u64, hit: &Hit) -> Step
    requires fits { FitsAct setup.now (Deliver slot hit.now) }
    requires monitor { monitor ≡ monitor_of setup.now.shape slot }
    ensures answer { result.answer ≡ (acted (table_at setup.now slot) 0 word (Deliver slot hit.now)).0 }
    ensures word { result.word ≡ (acted (table_at setup.now slot) 0 word (Deliver slot hit.now)).1 }
    ensures range { result.word < 2 ^ 64 }
    ensures fits { WhatFits hit.now.what }
{
    advance(setup.table_of(monitor, slot), word, hit)
}

/// The word after the act, and the answer.
#[inline(always)]
pub fn act_on(setup: &Setup, word: u64, act: &Act) -> Step
    requires { FitsAct setup.now act.now }
    ensures answer { result.answer ≡ (acted (table_of_act setup.now act.now) (start_of_act setup.now act.now) word act.now).0 }
    ensures word { result.word ≡ (acted (table_of_act setup.now act.now) (start_of_act setup.now act.now) word act.now).1 }
    ensures range { result.word < 2 ^ 64 }
    ensures fits { ActFits setup.now act.now }
{
    match *act {
        Act::Deliver { slot, hit } => advance(setup.table(slot), word, &hit),
        Act::Stop { .. } => Step {
            word: STOPPED,
            answer: Answer::Stopped,
        },
        Act::Clear { slot } => opened(setup, slot, Answer::Cleared),
        Act::End { slot } => opened(setup, slot, Answer::Ended),
        Act::Look => Step {
            word,
            answer: Answer::Looked(word),
        },
        Act::Raise { bits } => Step {
            word: word | bits,
            answer: Answer::Switched,
        },
        Act::Lower { bits } => Step {
            word: word & !bits,
            answer: Answer::Switched,
        },
    }
}
