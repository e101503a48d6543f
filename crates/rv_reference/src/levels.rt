//! The levels of an instance, by looking back over its entries, and the letter of a hit.
ghost use Rattle.std.specs.Prelude.{◌≡◌, ◌+◌, ◌*◌, ◌<◌, ◌^◌, ◌∷◌, ◌||◌, reverse, if◌then◌else◌};
ghost use Rattle.rv_model.specs.Numbers.{has_bit};
ghost use Rattle.rv_model.specs.Phases.{level_by, level_after, level, levels_of, letter_at};

use crate::bits::has_bit;
use rv_model::{Act, Entry, Letter, What};

/// Whether the atom is on after the history.
pub fn level(start: u32, history: &[Entry], slot: u32, atom: u32) -> bool
    ensures { result ≡ level start (reverse history.now) slot atom }
{
    match history {
        [] => has_bit(start as u64, atom as u64),
        [before @ .., entry] => level_after(
            start,
            slot,
            atom,
            entry.act,
            level(start, before, slot, atom),
        ),
    }
}

/// Whether the atom is on after the act, from whether it was.
pub fn level_after(start: u32, slot: u32, atom: u32, act: Act, was: bool) -> bool
    ensures { result ≡ level_after start slot atom act was }
{
    match act {
        Act::Deliver { slot: on, hit } => {
            if on == slot {
                level_by(hit.what, atom, was)
            } else {
                was
            }
        }
        Act::Clear { slot: on } | Act::End { slot: on } => {
            if on == slot {
                has_bit(start as u64, atom as u64)
            } else {
                was
            }
        }
        _ => was,
    }
}

fn level_by(what: What, atom: u32, was: bool) -> bool
    ensures { result ≡ level_by what atom was }
{
    match what {
        What::Da { event: _ } | What::Nothing => was,
        What::Ltl { on, off, pulse: _ } => {
            if has_bit(on as u64, atom as u64) {
                true
            } else if has_bit(off as u64, atom as u64) {
                false
            } else {
                was
            }
        }
    }
}

/// The set of the atoms that are on after the history.
pub fn levels_of(start: u32, history: &[Entry], slot: u32) -> u32
    ensures { result ≡ levels_of start (reverse history.now) slot }
{
    let mut set = 0u32;
    for atom in 0..32u32 {
        set = with_bit(set, atom, level(start, history, slot, atom));
    }
    set
}

/// The letter of the entry's hit on the slot, after what went before.
pub fn letter_at(start: u32, before: &[Entry], entry: Entry, slot: u32, what: What) -> Letter
    ensures { result ≡ letter_at (level start (entry ∷ reverse before.now) slot) what }
{
    match what {
        What::Da { event } => Letter::Event(event),
        What::Ltl {
            on: _,
            off: _,
            pulse,
        } => {
            let mut set = 0u32;
            for atom in 0..32u32 {
                set = with_bit(set, atom, holds(start, before, entry, slot, pulse, atom));
            }
            Letter::Atoms(set)
        }
        What::Nothing => Letter::Atoms(0),
    }
}

/// Whether the atom is in the entry's letter: it is on with the entry, or true for the entry alone.
fn holds(start: u32, before: &[Entry], entry: Entry, slot: u32, pulse: u32, atom: u32) -> bool
    ensures { result ≡ (level start (entry ∷ reverse before.now) slot atom || has_bit pulse atom) }
{
    let was = level(start, before, slot, atom);
    level_after(start, slot, atom, entry.act, was) || has_bit(pulse as u64, atom as u64)
}

/// The set, and the bit beside it where it is to be there; the bit is above all that the set has.
pub fn with_bit(set: u32, bit: u32, on: bool) -> u32
    requires above { set < 2 ^ bit }
    requires in_range { bit < 32 }
    ensures { result ≡ (if on then 1 else 0) * 2 ^ bit + set }
{
    if on { (1 << bit) + set } else { set }
}
