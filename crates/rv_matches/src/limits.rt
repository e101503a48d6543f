//! How much is kept of a trace.
ghost use Rattle.std.specs.Prelude.{◌≡◌};

use crate::event_facts::MOST_NAMES;
use crate::near::{FARTHEST, MOST_NEAR};
use crate::rule_lines::{MOST_FIELDS, MOST_VALUES};
use crate::words::LONGEST;

/// Every limit of this crate that a definition names.
pub fn limits_are_numerals()
    ensures bytes { LONGEST ≡ 64 }
    ensures names { MOST_NAMES ≡ 4096 }
    ensures fields { MOST_FIELDS ≡ 16 }
    ensures values { MOST_VALUES ≡ 16 }
    ensures near { MOST_NEAR ≡ 3 }
    ensures farthest { FARTHEST ≡ 3 }
{}
