//! Labels: formulas without temporal operators.
ghost use Rattle.std.specs.Prelude.{◌≡◌, IfOk};
ghost use Rattle.rv_model.specs.Formulas.{ltl};
ghost use Rattle.rv_model.specs.Labels.{is_propositional};
ghost use Rattle.rv_model.specs.Ltl.{Or};
ghost use Rattle.rv_nnf.specs.Tree.{with_polarity};

use rv_model::Formula;
use std::alloc::{AllocError, Global};

/// Whether the formula has no temporal operator.
pub fn is_propositional(formula: &Formula) -> bool
    ensures { result ≡ is_propositional (ltl formula.now) }
{
    match formula {
        Formula::True | Formula::False | Formula::Atom(_) => true,
        Formula::Not(f) => is_propositional(f),
        Formula::And(f, g) | Formula::Or(f, g) | Formula::Imply(f, g) | Formula::Equivalent(f, g) =>
            is_propositional(f) && is_propositional(g),
        _ => false,
    }
}

/// The label of a formula without temporal operators, or of its negation.
pub fn label(alloc: Global, formula: &Formula, positive: bool) -> Result<Formula, AllocError>
    ensures { IfOk result (λ label. ltl label ≡ with_polarity positive (ltl formula.now)) }
{
    if positive {
        return formula.copy(alloc);
    }
    match formula {
        Formula::True => Ok(Formula::False),
        Formula::False => Ok(Formula::True),
        _ => Ok(Formula::Not(Box::new(alloc, formula.copy(alloc)?)?)),
    }
}

/// The label of an `or` of two such formulas, or of its negation.
pub fn or_label(
    alloc: Global,
    f: &Formula,
    g: &Formula,
    positive: bool,
) -> Result<Formula, AllocError>
    ensures { IfOk result (λ label. ltl label ≡ with_polarity positive (Or (ltl f.now) (ltl g.now))) }
{
    let left = Box::new(alloc, f.copy(alloc)?)?;
    let both = Formula::Or(left, Box::new(alloc, g.copy(alloc)?)?);
    if positive {
        return Ok(both);
    }
    Ok(Formula::Not(Box::new(alloc, both)?))
}
