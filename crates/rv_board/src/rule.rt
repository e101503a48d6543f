//! The rule of the shared words, and what the seat that takes a step learns by it, for each kind of step.

use crate::view::View;
use atomic_table::{Join, Play, Split, TableRule};
use rv_core::Setup;
use rv_model::Act;
use std::marker::{Brand, PhantomData};

/// The rule of a board's words: one sound history gives them, and each seat has seen a beginning of it.
pub struct Law;

impl TableRule<Act, View, Setup> for Law {
    ghost use Rattle.rv_board.specs.inner.Rule.{KeptPlainly, first_view};

    ghost holds = { KeptPlainly };

    ghost first = { first_view };
}

/// A load that makes no entry.
pub(crate) struct LoadStep;

impl Play<Act, View> for LoadStep {
    ghost use Rattle.rv_board.specs.inner.Steps.{IsLoadStep};

    ghost then = { IsLoadStep };
}

/// A compare-exchange that adds the act passed to it where it wins, and no entry where it loses.
pub(crate) struct ExchangeStep;

impl Play<Act, View> for ExchangeStep {
    ghost use Rattle.rv_board.specs.inner.Steps.{IsExchangeStep};

    ghost then = { IsExchangeStep };
}

/// A swap of 0 into a slot's word, which stops the instance.
pub(crate) struct StopStep;

impl Play<Act, View> for StopStep {
    ghost use Rattle.rv_board.specs.inner.Steps.{IsStopStep};

    ghost then = { IsStopStep };
}

/// A load of the switches that counts as a look.
pub(crate) struct LookStep;

impl Play<Act, View> for LookStep {
    ghost use Rattle.rv_board.specs.inner.Steps.{IsLookStep};

    ghost then = { IsLookStep };
}

/// An `or` of the switches, which turns on the bits that it has.
pub(crate) struct RaiseStep;

impl Play<Act, View> for RaiseStep {
    ghost use Rattle.rv_board.specs.inner.Steps.{IsRaiseStep};

    ghost then = { IsRaiseStep };
}

/// An `and` of the switches, which turns off the bits that it lacks.
pub(crate) struct LowerStep;

impl Play<Act, View> for LowerStep {
    ghost use Rattle.rv_board.specs.inner.Steps.{IsLowerStep};

    ghost then = { IsLowerStep };
}

/// A swap of the opening word into a slot's word, by the control actor.
pub(crate) struct ClearStep;

impl Play<Act, View> for ClearStep {
    ghost use Rattle.rv_board.specs.inner.Steps.{IsClearStep};

    ghost then = { IsClearStep };
}

/// A swap of the opening word into the word of a slot whose instance ends.
pub(crate) struct EndStep;

impl Play<Act, View> for EndStep {
    ghost use Rattle.rv_board.specs.inner.Steps.{IsEndStep};

    ghost then = { IsEndStep };
}

/// The number at which a seat is cut, known to proofs alone: each call of `cut` picks it.
pub trait Cutting {
    ghost use Rattle.std.specs.Prelude.{ℕ};

    ghost at: { ℕ };
}

impl Cutting for Brand {
    ghost at = { 0 };
}

/// Cuts a view at the number of `N`: the numbers below it stay, and the others go to a new seat.
pub struct Cut<N> {
    of: PhantomData<N>,
}

impl<N: Cutting> Split<View> for Cut<N> {
    ghost use Rattle.rv_board.specs.Rule.{cut_left, cut_right};

    ghost left = { cut_left N.at };

    ghost right = { cut_right N.at };
}

/// Joins one view into another, which takes over its numbers and what it has seen.
pub struct Joining;

impl Join<View> for Joining {
    ghost use Rattle.rv_board.specs.Rule.{joined, spent_view};

    ghost both = { joined };

    ghost spent = { spent_view };
}
