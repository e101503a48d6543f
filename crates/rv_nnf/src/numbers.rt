//! From a formula to its normal form: a walk that takes the left operand, the right operand, then the part itself.
ghost use Rattle.std.specs.Prelude.{◌≡◌, ◌↔◌, ◌≤◌, ◌-◌, ℕ, List, length, vec_len, IfOk, IsTrue, OnOk};
ghost use Rattle.rv_text.specs.Readings.{Gives};
ghost use Rattle.rv_model.specs.Formulas.{ltl, HasAtomsBelow};
ghost use Rattle.rv_model.specs.Ltl.{Or};
ghost use Rattle.rv_model.specs.Truth.{View, Satisfies};
ghost use Rattle.rv_model.specs.Weights.{weight};
ghost use Rattle.rv_nnf.specs.inner.Entering.{numbers, and_or_of, until_release_of, part_of, tree_joined};
ghost use Rattle.rv_nnf.specs.NormalForm.{normal_of};
ghost use Rattle.rv_nnf.specs.Parts.{part_meaning};
ghost use Rattle.rv_nnf.specs.Tree.{tree_of};
ghost use Rattle.rv_nnf.specs.Views.{part_value, part_values};

use crate::entering::enter;
use crate::labels::{is_propositional, label, or_label};
use crate::parts::{Normal, Part};
use rv_model::Formula;
use rv_text::Refused;
use std::alloc::Global;

/// What joins two operands.
#[derive(Clone, Copy)]
enum Joint {
    And,
    Or,
    Until,
    Release,
}

/// An `and` or an `or`.
fn and_or(and: bool) -> Joint
    ensures { result ≡ and_or_of and }
{
    if and { Joint::And } else { Joint::Or }
}

/// An until or a release.
fn until_release(until: bool) -> Joint
    ensures { result ≡ until_release_of until }
{
    if until { Joint::Until } else { Joint::Release }
}

/// The part that joins the operands of these numbers.
fn part(joint: Joint, i: u8, j: u8) -> Part
    ensures { part_value result ≡ part_of joint i j }
{
    match joint {
        Joint::And => Part::And(i, j),
        Joint::Or => Part::Or(i, j),
        Joint::Until => Part::Until(i, j),
        Joint::Release => Part::Release(i, j),
    }
}

/// The number of two normal forms joined, each that of a formula or of its negation.
#[cycle(number)]
#[tactic(auto, using(crate::proofs::Polarities::joined_numbers))]
fn joined(
    alloc: Global,
    parts: &mut Vec<Part>,
    joint: Joint,
    f: &Formula,
    f_positive: bool,
    g: &Formula,
    g_positive: bool,
) -> Result<u8, Refused>
    requires { vec_len parts.old ≤ 64 }
    ensures gives { Gives (λ number. (part_values parts.new.items, number)) result (numbers (part_values parts.old.items) (tree_joined joint (tree_of (ltl f.now) f_positive) (tree_of (ltl g.now) g_positive))) }
    ensures few { OnOk result (vec_len parts.new ≤ 64) }
{
    let i = number(alloc, parts, f, f_positive)?;
    let j = number(alloc, parts, g, g_positive)?;
    enter(parts, part(joint, i, j))
}

/// The number of the normal form of `f or g`, or of its negation.
#[cycle(number)]
#[tactic(auto, using(crate::proofs::Polarities::or_joined))]
fn either(
    alloc: Global,
    parts: &mut Vec<Part>,
    f: &Formula,
    g: &Formula,
    positive: bool,
) -> Result<u8, Refused>
    requires { vec_len parts.old ≤ 64 }
    ensures gives { Gives (λ number. (part_values parts.new.items, number)) result (numbers (part_values parts.old.items) (tree_of (Or (ltl f.now) (ltl g.now)) positive)) }
    ensures few { OnOk result (vec_len parts.new ≤ 64) }
{
    if is_propositional(f) && is_propositional(g) {
        return enter(parts, Part::Label(or_label(alloc, f, g, positive)?));
    }
    joined(alloc, parts, and_or(!positive), f, positive, g, positive)
}

/// The number of the normal form of a formula or of its negation, whose parts are entered by first use.
#[cycle(number)]
fn number(
    alloc: Global,
    parts: &mut Vec<Part>,
    formula: &Formula,
    positive: bool,
) -> Result<u8, Refused>
    requires { vec_len parts.old ≤ 64 }
    ensures gives { Gives (λ number. (part_values parts.new.items, number)) result (numbers (part_values parts.old.items) (tree_of (ltl formula.now) positive)) }
    ensures few { OnOk result (vec_len parts.new ≤ 64) }
{
    if is_propositional(formula) {
        return enter(parts, Part::Label(label(alloc, formula, positive)?));
    }
    match formula {
        Formula::Not(f) => number(alloc, parts, f, !positive),
        Formula::Next(f) => {
            let i = number(alloc, parts, f, positive)?;
            enter(parts, Part::Next(i))
        }
        Formula::Always(f) => {
            let joint = until_release(!positive);
            joined(alloc, parts, joint, &Formula::False, positive, f, positive)
        }
        Formula::Eventually(f) => {
            let joint = until_release(positive);
            joined(alloc, parts, joint, &Formula::True, positive, f, positive)
        }
        Formula::And(f, g) => joined(alloc, parts, and_or(positive), f, positive, g, positive),
        Formula::Or(f, g) => either(alloc, parts, f, g, positive),
        Formula::Imply(f, g) => joined(alloc, parts, and_or(!positive), f, !positive, g, positive),
        Formula::Equivalent(f, g) => {
            let left = joined(alloc, parts, Joint::And, f, true, g, positive)?;
            let right = joined(alloc, parts, Joint::And, f, false, g, !positive)?;
            enter(parts, Part::Or(left, right))
        }
        Formula::Until(f, g) => {
            let joint = until_release(positive);
            joined(alloc, parts, joint, f, positive, g, positive)
        }
        Formula::Release(f, g) => {
            let joint = until_release(!positive);
            joined(alloc, parts, joint, f, positive, g, positive)
        }
        Formula::WeakUntil(f, g) => {
            let right = number(alloc, parts, g, positive)?;
            let both = either(alloc, parts, f, g, positive)?;
            enter(parts, part(until_release(!positive), right, both))
        }
        Formula::True | Formula::False | Formula::Atom(_) => unreachable!(),
    }
}

/// The normal form of a formula, whose last part holds exactly where the formula does. The walk calls itself as deep as
/// the formula is, which its weight bounds.
pub fn normal(alloc: Global, formula: &Formula) -> Result<Normal, Refused>
    requires atoms { HasAtomsBelow 32 (ltl formula.now) }
    requires light { weight (ltl formula.now) ≤ 1024 }
    ensures gives { Gives (λ parts. parts) result (normal_of (ltl formula.now)) }
    ensures holds { IfOk result (λ parts. (view : View) (letters : List ℕ) →
        IsTrue (part_meaning parts (length parts - 1) view letters) ↔ Satisfies view letters (ltl formula.now)) }
{
    let mut parts = Vec::new(alloc);
    number(alloc, &mut parts, formula, true)?;
    Ok(Normal { parts })
}
