//! The limits by numerals.
ghost use Rattle.std.specs.Prelude.{◌≡◌};

use crate::files::MAX_BLOCKS;

/// Every limit of this crate that a definition names.
pub fn limits_are_numerals()
    ensures blocks { MAX_BLOCKS ≡ 15625 }
{}
