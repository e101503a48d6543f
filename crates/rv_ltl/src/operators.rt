//! The operators between two operands, as one table.

ghost use Rattle.std.specs.Prelude.{◌≡◌};
ghost use Rattle.rv_ltl.specs.Operators.{row_of, is_same_operator, joins};

use crate::token::Binary;

/// The operator's row in the table.
fn row_of(op: Binary) -> u8
    ensures { result ≡ row_of op }
{
    match op {
        Binary::And => 0,
        Binary::Or => 1,
        Binary::Until => 2,
        Binary::Release => 3,
        Binary::WeakUntil => 4,
        Binary::Imply => 5,
        Binary::Equivalent => 6,
    }
}

/// Whether two operators are one.
pub fn is_same_operator(one: Binary, other: Binary) -> bool
    ensures { result ≡ is_same_operator one other }
{
    row_of(one) == row_of(other)
}

/// How often the operator may stand in one chain.
pub fn joins(op: Binary) -> usize
    ensures { result ≡ joins op }
{
    match op {
        Binary::And => 255,
        Binary::Or => 255,
        Binary::Until => 1,
        Binary::Release => 1,
        Binary::WeakUntil => 1,
        Binary::Imply => 1,
        Binary::Equivalent => 1,
    }
}
