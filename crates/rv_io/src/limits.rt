//! The limits by numerals.
ghost use Rattle.std.specs.Prelude.{◌≡◌};

use crate::store::READ_LIMIT;

/// Every limit of this crate that a definition names.
pub fn limits_are_numerals()
    ensures bytes { READ_LIMIT ≡ 134217729 }
{}
