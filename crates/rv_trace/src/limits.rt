//! The limits by numerals.
ghost use Rattle.std.specs.Prelude.{◌≡◌};

use crate::line::{LAST_CPU, LAST_PID};
use crate::trace::{MAX_BYTES, MAX_LINES};

/// Every limit of this crate that a definition names.
pub fn limits_are_numerals()
    ensures bytes { MAX_BYTES ≡ 134217728 }
    ensures lines { MAX_LINES ≡ 1000000 }
    ensures pid { LAST_PID ≡ 4294967295 }
    ensures cpu { LAST_CPU ≡ 63 }
{}
