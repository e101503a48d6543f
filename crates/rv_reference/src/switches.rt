//! The switches, by looking back over a history.
ghost use Rattle.std.specs.Prelude.{◌≡◌, ◌+◌, ◌*◌, ◌<◌, ◌^◌, reverse, if◌then◌else◌};
ghost use Rattle.rv_model.specs.SharedWords.{switch_after, switch, switches_of};

use crate::bits::has_bit;
use rv_model::{Act, Entry};

/// Whether the switch is on after the history.
pub fn switch(opening: u64, history: &[Entry], bit: u32) -> bool
    ensures { result ≡ switch opening (reverse history.now) bit }
{
    match history {
        [] => has_bit(opening, bit as u64),
        [before @ .., entry] => switch_after(bit, entry.act, switch(opening, before, bit)),
    }
}

fn switch_after(bit: u32, act: Act, was: bool) -> bool
    ensures { result ≡ switch_after bit act was }
{
    match act {
        Act::Raise { bits } => { if has_bit(bits, bit as u64) { true } else { was } }
        Act::Lower { bits } => {
            if has_bit(bits, bit as u64) {
                false
            } else {
                was
            }
        }
        _ => was,
    }
}

/// All switches after the history.
pub fn switches_of(opening: u64, history: &[Entry]) -> u64
    ensures { result ≡ switches_of opening (reverse history.now) }
{
    let mut set = 0u64;
    for bit in 0..64u32 {
        set = with_switch(set, bit, switch(opening, history, bit));
    }
    set
}

/// The set, and the bit beside it where it is to be there; the bit is above all that the set has.
fn with_switch(set: u64, bit: u32, on: bool) -> u64
    requires above { set < 2 ^ bit }
    requires in_range { bit < 64 }
    ensures { result ≡ (if on then 1 else 0) * 2 ^ bit + set }
{
    if on { (1 << bit) + set } else { set }
}
