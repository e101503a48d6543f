//! Weights, as far as they are known and as far as they count.

ghost use Rattle.std.specs.Prelude.{◌≡◌, ◌+◌, ◌*◌, ◌^◌, ◌<◌, ◌↔◌, IsTrue};
ghost use Rattle.rv_ltl.specs.Operators.{weight_two};
ghost use Rattle.rv_ltl.specs.declared.weight.Weight.TheVariants.{Open};
ghost use Rattle.rv_ltl.specs.inner.Weights.{limited, one_weight, two_weights};

use crate::token::Binary;

/// What is known of a formula's weight.
#[derive(Clone, Copy)]
pub enum Weight {
    /// Nothing yet.
    Open,
    /// It is over 1,024.
    Large,
    /// It is this number.
    Is(u32),
}

impl Weight {
    /// Whether nothing is known yet.
    pub fn is_open(self) -> bool
        ensures { IsTrue result ↔ self ≡ Open }
    {
        matches!(self, Weight::Open)
    }
}

fn weight_two(op: Binary, left: u32, right: u32) -> u64
    ensures { result ≡ weight_two op left right }
{
    match op {
        Binary::And => 1 + (left as u64 + right as u64),
        Binary::Or => 1 + (left as u64 + right as u64),
        Binary::Until => 1 + (left as u64 + right as u64),
        Binary::Release => 1 + (left as u64 + right as u64),
        Binary::WeakUntil => 2 + (left as u64 + 2 * right as u64),
        Binary::Imply => 1 + (left as u64 + right as u64),
        Binary::Equivalent => 3 + 2 * (left as u64 + right as u64),
    }
}

fn limited(weight: u64) -> Weight
    ensures { result ≡ limited weight }
{
    if 1024 < weight {
        Weight::Large
    } else {
        Weight::Is(weight as u32)
    }
}

/// The weight under an operator.
pub fn one_weight(operand: Weight) -> Weight
    ensures { result ≡ one_weight operand }
{
    match operand {
        Weight::Open => Weight::Open,
        Weight::Large => Weight::Large,
        Weight::Is(weight) => limited(1 + weight as u64),
    }
}

/// The weight of two operands with the operator between them.
pub fn two_weights(op: Binary, left: Weight, right: Weight) -> Weight
    ensures { result ≡ two_weights op left right }
{
    match left {
        Weight::Open => Weight::Open,
        Weight::Large => match right {
            Weight::Open => Weight::Open,
            _ => Weight::Large,
        },
        Weight::Is(w) => match right {
            Weight::Open => Weight::Open,
            Weight::Large => Weight::Large,
            Weight::Is(x) => limited(weight_two(op, w, x)),
        },
    }
}
