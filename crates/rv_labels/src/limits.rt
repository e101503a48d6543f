//! The limits by numerals.
ghost use Rattle.std.specs.Prelude.{◌≡◌};

use crate::sizes::MOST_CUBES;

/// Every limit of this crate that a definition names.
pub fn limits_are_numerals()
    ensures cubes { MOST_CUBES ≡ 64 }
{}
