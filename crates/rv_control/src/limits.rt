//! The limits by numerals.
ghost use Rattle.std.specs.Prelude.{◌≡◌};

use crate::script::SCRIPT_LIMIT;

/// Every limit of this crate that a definition names.
pub fn limits_are_numerals()
    ensures script { SCRIPT_LIMIT ≡ 1048576 }
{}
