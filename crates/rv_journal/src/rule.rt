//! The rule of the counted words, and what the seat that takes a step learns by it, for each kind of step.

use atomic_table::{Play, TableRule};
use rv_board::View;
use rv_core::Setup;
use rv_model::Act;

/// The rule of a counted board's words: one sound history gives them and their counts, each seat has seen a beginning
/// of it, and no number has more than 4,000,000 entries.
pub struct CountedLaw;

impl TableRule<Act, View, Setup> for CountedLaw {
    ghost use Rattle.rv_board.specs.inner.Rule.{first_view};
    ghost use Rattle.rv_journal.specs.inner.CountedWords.{KeptCounted};

    ghost holds = { KeptCounted };

    ghost first = { first_view };
}

/// A load that makes no entry.
pub(crate) struct CountedLoad;

impl Play<Act, View> for CountedLoad {
    ghost use Rattle.rv_journal.specs.inner.CountedSteps.{IsCountedLoad};

    ghost then = { IsCountedLoad };
}

/// A compare-exchange that adds the act passed to it where it wins, and no entry where it loses.
pub(crate) struct CountedExchange;

impl Play<Act, View> for CountedExchange {
    ghost use Rattle.rv_journal.specs.inner.CountedSteps.{IsCountedExchange};

    ghost then = { IsCountedExchange };
}

/// An `and` of a slot's word that leaves its count alone, which stops the instance.
pub(crate) struct CountedStop;

impl Play<Act, View> for CountedStop {
    ghost use Rattle.rv_journal.specs.inner.CountedSteps.{IsCountedStop};

    ghost then = { IsCountedStop };
}
