//! The limits by numerals.
ghost use Rattle.std.specs.Prelude.{◌≡◌};

use crate::shape::{CPUS, MAX_MONITORS, MAX_SLOTS};
use crate::tasks::MAX_TASKS;

/// Every limit of this crate that a definition names.
pub fn limits_are_numerals()
    ensures cpus { CPUS ≡ 64 }
    ensures monitors { MAX_MONITORS ≡ 32 }
    ensures slots { MAX_SLOTS ≡ 2097152 }
    ensures tasks { MAX_TASKS ≡ 65536 }
{}
