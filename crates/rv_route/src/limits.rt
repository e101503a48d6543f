//! The limits by numerals.
ghost use Rattle.std.specs.Prelude.{◌≡◌};

use crate::deliveries::MAX_DELIVERIES;

/// Every limit of this crate that a definition names.
pub fn limits_are_numerals()
    ensures deliveries { MAX_DELIVERIES ≡ 4000000 }
{}
