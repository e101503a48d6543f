//! The limits by numerals.
ghost use Rattle.std.specs.Prelude.{◌≡◌};

use crate::seat::SEATS;
use crate::spacing::{LINE_WORDS, SPREAD_SLOTS};

/// Every limit of this crate that a definition names.
pub fn limits_are_numerals()
    ensures seats { SEATS ≡ 67 }
    ensures line { LINE_WORDS ≡ 8 }
    ensures spread { SPREAD_SLOTS ≡ 4096 }
{}
