//! Whether labels are true on a letter.
ghost use Rattle.std.specs.Prelude.{◌≡◌};
ghost use Rattle.rv_model.specs.Formulas.{ltl};
ghost use Rattle.rv_model.specs.Meaning.{true_on};
ghost use Rattle.rv_model.specs.Labels.{IsLabel};

use crate::cube::of_atom;
use rv_model::Formula;

/// Whether a formula with no temporal operator is true on the letter.
pub fn is_true(formula: &Formula, letter: u32) -> bool
    requires { IsLabel (ltl formula.now) }
    ensures { result ≡ true_on letter (ltl formula.now) }
{
    match formula {
        Formula::True => true,
        Formula::Atom(atom) => of_atom(*atom, true).holds(letter),
        Formula::Not(f) => !is_true(f, letter),
        Formula::And(f, g) => is_true(f, letter) && is_true(g, letter),
        Formula::Or(f, g) => is_true(f, letter) || is_true(g, letter),
        Formula::Imply(f, g) => !is_true(f, letter) || is_true(g, letter),
        Formula::Equivalent(f, g) => is_true(f, letter) == is_true(g, letter),
        _ => false,
    }
}
