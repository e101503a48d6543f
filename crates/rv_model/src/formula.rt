//! Formulas of linear temporal logic, and what a monitor may be specified by.
ghost use Rattle.std.specs.Prelude.{◌≡◌, ◌↔◌, IfOk, IsTrue};
ghost use Rattle.rv_model.specs.Formulas.{ltl};

use crate::automaton::Automaton;
use crate::name::Names;
use std::alloc::{AllocError, Global};
use std::marker::Model;

/// Contracts see it as plain data, without the boxes.
pub enum Formula {
    True,
    False,
    /// By its place in the rule's list of atoms.
    Atom(u8),
    Not(Box<Formula>),
    Next(Box<Formula>),
    Always(Box<Formula>),
    Eventually(Box<Formula>),
    And(Box<Formula>, Box<Formula>),
    Or(Box<Formula>, Box<Formula>),
    Imply(Box<Formula>, Box<Formula>),
    Equivalent(Box<Formula>, Box<Formula>),
    Until(Box<Formula>, Box<Formula>),
    /// The right operand holds up to and with the first letter where the left one does, and always if there is none.
    Release(Box<Formula>, Box<Formula>),
    /// An until whose right operand need not come.
    WeakUntil(Box<Formula>, Box<Formula>),
}

/// Taken apart once, here, so that what drops one has nothing to prove of its parts.
impl Drop for Formula {
    fn drop(self) {
        match self {
            Formula::True | Formula::False | Formula::Atom(_) => {}
            Formula::Not(_) | Formula::Next(_) | Formula::Always(_) | Formula::Eventually(_) => {}
            Formula::And(_, _)
            | Formula::Or(_, _)
            | Formula::Imply(_, _)
            | Formula::Equivalent(_, _) => {}
            Formula::Until(_, _) | Formula::Release(_, _) | Formula::WeakUntil(_, _) => {}
        }
    }
}

/// A formula and the names of its atoms: at most 32, ascending by bytes.
#[derive(Drop)]
pub struct Rule {
    pub atoms: Names,
    pub formula: Formula,
}

impl Model for Rule {
    ghost use Rattle.rv_model.specs.Formulas.{RuleValue, coded_rule, ltl, IsRule};

    ghost Value = { RuleValue };

    ghost coded = { coded_rule };

    ghost view = { λ r. record { atoms = r.atoms; formula = ltl r.formula } };

    ghost invariant = { λ r. IsRule (record { atoms = r.atoms; formula = ltl r.formula }) };
}

/// What a monitor is specified by.
#[derive(Drop)]
pub enum Spec {
    Da(Automaton),
    Ltl(Rule),
}

impl Formula {
    /// An equal formula.
    pub fn copy(&self, alloc: Global) -> Result<Formula, AllocError>
        ensures { IfOk result (λ copy. ltl copy ≡ ltl self.now) }
    {
        Ok(Box::into_inner(self.boxed(alloc)?))
    }

    /// An equal formula in a box, as an operator holds its operands.
    fn boxed(&self, alloc: Global) -> Result<Box<Formula>, AllocError>
        ensures { IfOk result (λ copy. ltl copy.value ≡ ltl self.now) }
    {
        let copy = match self {
            Formula::True => Formula::True,
            Formula::False => Formula::False,
            Formula::Atom(a) => Formula::Atom(*a),
            Formula::Not(f) => Formula::Not(f.boxed(alloc)?),
            Formula::Next(f) => Formula::Next(f.boxed(alloc)?),
            Formula::Always(f) => Formula::Always(f.boxed(alloc)?),
            Formula::Eventually(f) => Formula::Eventually(f.boxed(alloc)?),
            Formula::And(f, g) => Formula::And(f.boxed(alloc)?, g.boxed(alloc)?),
            Formula::Or(f, g) => Formula::Or(f.boxed(alloc)?, g.boxed(alloc)?),
            Formula::Imply(f, g) => Formula::Imply(f.boxed(alloc)?, g.boxed(alloc)?),
            Formula::Equivalent(f, g) => Formula::Equivalent(f.boxed(alloc)?, g.boxed(alloc)?),
            Formula::Until(f, g) => Formula::Until(f.boxed(alloc)?, g.boxed(alloc)?),
            Formula::Release(f, g) => Formula::Release(f.boxed(alloc)?, g.boxed(alloc)?),
            Formula::WeakUntil(f, g) => Formula::WeakUntil(f.boxed(alloc)?, g.boxed(alloc)?),
        };
        Ok(Box::new(alloc, copy)?)
    }

    /// Whether the two are the same formula.
    pub fn equals(&self, other: &Formula) -> bool
        ensures { IsTrue result ↔ ltl self.now ≡ ltl other.now }
    {
        match (self, other) {
            (Formula::True, Formula::True) | (Formula::False, Formula::False) => true,
            (Formula::Atom(a), Formula::Atom(b)) => *a == *b,
            (Formula::Not(f), Formula::Not(g))
            | (Formula::Next(f), Formula::Next(g))
            | (Formula::Always(f), Formula::Always(g))
            | (Formula::Eventually(f), Formula::Eventually(g)) => f.equals(g),
            (Formula::And(f, h), Formula::And(g, k))
            | (Formula::Or(f, h), Formula::Or(g, k))
            | (Formula::Imply(f, h), Formula::Imply(g, k))
            | (Formula::Equivalent(f, h), Formula::Equivalent(g, k))
            | (Formula::Until(f, h), Formula::Until(g, k))
            | (Formula::Release(f, h), Formula::Release(g, k))
            | (Formula::WeakUntil(f, h), Formula::WeakUntil(g, k)) => f.equals(g) && h.equals(k),
            _ => false,
        }
    }
}
