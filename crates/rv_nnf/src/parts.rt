//! A normal form: a list of parts, the last of which is the whole formula.
use rv_model::Formula;
use std::marker::Model;

/// A part, which names its operands by their numbers.
#[derive(Drop)]
pub enum Part {
    /// A formula without temporal operators.
    Label(Formula),
    /// Both hold.
    And(u8, u8),
    /// One of the two holds.
    Or(u8, u8),
    /// It holds after the first letter.
    Next(u8),
    /// The second holds at some place, and the first up to there.
    Until(u8, u8),
    /// The second holds up to the place where the first holds too, or for ever.
    Release(u8, u8),
}

/// The parts of a normal form, each after its operands.
#[derive(Drop)]
pub struct Normal {
    pub parts: Vec<Part>,
}

impl Model for Normal {
    ghost use Rattle.std.specs.Prelude.{List};
    ghost use Rattle.rv_nnf.specs.Parts.{PartValue, IsNormal};
    ghost use Rattle.rv_nnf.specs.Codes.{coded_parts};

    ghost Value = { List PartValue };

    ghost coded = { coded_parts };

    ghost use Rattle.rv_nnf.specs.Views.{part_values};

    ghost view = { λ normal. part_values normal.parts.items };

    ghost invariant = { λ normal. IsNormal (part_values normal.parts.items) };
}
