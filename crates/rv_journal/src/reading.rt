//! Entries are read back from their lines.
ghost use Rattle.std.specs.Prelude.{◌≡◌, Some, IfSome};
ghost use Rattle.rv_model.specs.declared.entry.Entry.{Entry as Told};
ghost use Rattle.rv_journal.specs.EntryTexts.{entry_text, IsEntry};
ghost use Rattle.rv_journal.specs.inner.PieceReadings.{most_32, number_from, ReadsWords};
ghost use Rattle.rv_journal.specs.inner.EntryReadings.{event_from, sets_from, what_from, deliver_from, act_from, entry_from};

use crate::names::{ActVerb, LetterKind};
use crate::pieces::{next_kind, next_mode, next_number, next_verb};
use rv_model::{Act, Entry, Hit, What};
use rv_text::Pieces;

/// Reads a number of at most 32 bits.
fn small(words: &mut Pieces<'_>) -> Option<u32>
    ensures { ReadsWords (number_from most_32) words.old words.new result }
{
    let n = next_number(words, u32::MAX as u64)?;
    Some(n as u32)
}

/// Reads the number of an automaton's event.
fn event(words: &mut Pieces<'_>) -> Option<What>
    ensures { ReadsWords event_from words.old words.new result }
{
    let event = next_number(words, u8::MAX as u64)?;
    Some(What::Da { event: event as u8 })
}

/// Reads the three sets of a rule's atoms: those that go on, those that go off, and the pulses.
fn sets(words: &mut Pieces<'_>) -> Option<What>
    ensures { ReadsWords sets_from words.old words.new result }
{
    let on = small(words)?;
    let off = small(words)?;
    let pulse = small(words)?;
    Some(What::Ltl { on, off, pulse })
}

/// Reads a kind of letter, and then the letter.
fn what(words: &mut Pieces<'_>) -> Option<What>
    ensures { ReadsWords what_from words.old words.new result }
{
    let kind = next_kind(words)?;
    match kind {
        LetterKind::Da => event(words),
        LetterKind::Ltl => sets(words),
    }
}

/// Reads a delivery, after its name: its slot, its mode, and what is delivered.
fn deliver(words: &mut Pieces<'_>) -> Option<Act>
    ensures { ReadsWords deliver_from words.old words.new result }
{
    let slot = small(words)?;
    let mode = next_mode(words)?;
    let what = what(words)?;
    Some(Act::Deliver {
        slot,
        hit: Hit { mode, what },
    })
}

/// Reads the name of an act, and then its numbers.
fn act(words: &mut Pieces<'_>) -> Option<Act>
    ensures { ReadsWords act_from words.old words.new result }
{
    let verb = next_verb(words)?;
    match verb {
        ActVerb::Deliver => deliver(words),
        ActVerb::Stop => {
            let stopped = small(words)?;
            Some(Act::Stop { slot: stopped })
        }
        ActVerb::Look => Some(Act::Look),
        ActVerb::Raise => {
            let raised = next_number(words, u64::MAX)?;
            Some(Act::Raise { bits: raised })
        }
        ActVerb::Lower => {
            let lowered = next_number(words, u64::MAX)?;
            Some(Act::Lower { bits: lowered })
        }
        ActVerb::Clear => {
            let cleared = small(words)?;
            Some(Act::Clear { slot: cleared })
        }
        ActVerb::End => {
            let ended = small(words)?;
            Some(Act::End { slot: ended })
        }
    }
}

/// Reads an entry, after which no word may be left.
fn entry(words: &mut Pieces<'_>) -> Option<Entry>
    ensures { result ≡ entry_from words.old }
{
    let seat = small(words)?;
    let act = act(words)?;
    let before = next_number(words, u64::MAX)?;
    let after = next_number(words, u64::MAX)?;
    match words.next_piece() {
        Some(_) => None,
        None => Some(Entry {
            seat,
            act,
            before,
            after,
        }),
    }
}

/// The entry whose text the line is, if there is one. The line has no line end, one blank between two words, and no
/// zero in front of another digit.
pub fn read_entry(line: &[u8]) -> Option<Entry>
    ensures some { IfSome result (λ e. entry_text e ≡ line.now) }
    ensures fits { IfSome result IsEntry }
    ensures every { (e : Told) → IsEntry e → entry_text e ≡ line.now → result ≡ Some e }
{
    let mut words = Pieces::new(b' ', line);
    entry(&mut words)
}
