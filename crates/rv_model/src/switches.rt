//! The switches: their bits in word 0, and what a look at them shows.
ghost use Rattle.std.specs.Prelude.{◌≡◌};
ghost use Rattle.rv_model.specs.Scripts.{is_enabled_by, fails};

use crate::bits::has_bit;
use crate::entry::Answer;
use crate::work::Delivery;

/// Monitoring is on.
pub const MONITORING: usize = 32;

/// Reacting is on.
pub const REACTING: usize = 33;

/// The run is halted.
pub const HALTED: usize = 34;

/// Whether a look shows the delivery on.
pub fn is_enabled_by(word: u64, delivery: &Delivery) -> bool
    ensures { result ≡ is_enabled_by word delivery.now }
{
    has_bit(word, MONITORING) && has_bit(word, delivery.monitor as usize)
}

/// Whether the letter was not allowed.
pub fn fails(answer: Answer) -> bool
    ensures { result ≡ fails answer }
{
    matches!(answer, Answer::Failed(_))
}
