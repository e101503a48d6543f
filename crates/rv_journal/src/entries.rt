//! The ranges of an entry's numbers, as calls that give them to a proof, and a list of entries as a history.
ghost use Rattle.std.specs.Prelude.{◌≡◌, ◌<◌, ◌^◌, All};
ghost use Rattle.rv_journal.specs.EntryTexts.{IsWhat, IsAct, IsNoEnd, IsEntry};

use rv_model::{Act, Closed, Entry, What};

/// An event fits 8 bits.
fn assert_event(event: u8)
    ensures { event < 2 ^ 8 }
{}

/// A seat, a slot and a set of atoms fit 32 bits.
fn assert_number(number: u32)
    ensures { number < 2 ^ 32 }
{}

/// A word fits 64 bits.
fn assert_entry_word(word: u64)
    ensures { word < 2 ^ 64 }
{}

/// Gives a proof that the event or the sets of a hit are in range.
fn assert_what(what: What)
    ensures { IsWhat what }
{
    match what {
        What::Da { event } => assert_event(event),
        What::Ltl { on, off, pulse } => {
            assert_number(on);
            assert_number(off);
            assert_number(pulse);
        }
        What::Nothing => (),
    }
}

/// Gives a proof that the slot or the bits of an act are in range.
fn assert_entry_act(act: Act)
    ensures { IsAct act }
{
    match act {
        Act::Deliver { slot, hit } => {
            assert_number(slot);
            assert_what(hit.what);
        }
        Act::Stop { slot } => assert_number(slot),
        Act::Look => (),
        Act::Raise { bits } => assert_entry_word(bits),
        Act::Lower { bits } => assert_entry_word(bits),
        Act::Clear { slot } => assert_number(slot),
        Act::End { slot } => assert_number(slot),
    }
}

/// Gives a proof that all numbers of an entry are in range, where its hit is no end.
fn assert_entry(entry: &Entry)
    requires { IsNoEnd entry.now.act }
    ensures { IsEntry entry.now }
{
    assert_number(entry.seat);
    assert_entry_act(entry.act);
    assert_entry_word(entry.before);
    assert_entry_word(entry.after);
}

/// The entries as a history, which contracts alone see, and of whose numbers it is known that they are in range.
pub(crate) fn closed_of(entries: &[Entry]) -> Closed
    requires { All (λ e. IsNoEnd e.act) entries.now }
    ensures closed { result ≡ entries.now }
    ensures known { All IsEntry entries.now }
{
    let mut closed = Closed::new();
    for entry in entries {
        assert_entry(entry);
        closed.push(entry);
    }
    closed
}
