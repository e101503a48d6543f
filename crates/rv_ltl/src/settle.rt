//! The weight of what each definition stands for, from the inside out, without writing any of it out.
//! Which definitions use which is asked first, so that each formula is weighed once.

ghost use Rattle.std.specs.Prelude.{◌≡◌, ◌≢◌, ◌<◌, ℕ, length, IfOk, IfSome, IfNone, true, false};
ghost use Rattle.rv_ltl.specs.inner.Machine.{defs, AllCoded};
ghost use Rattle.rv_ltl.specs.inner.Weights.{IsDistinct, IsSettled, IsSure, Learns, Passes, known_at, known_count};
ghost use Rattle.rv_ltl.specs.inner.Reached.{AreUses, flag_at};
ghost use Rattle.rv_ltl.specs.declared.weight.Weight.TheVariants.{Open};

use crate::definitions::Definition;
use crate::weighing::{weigh, weight_of_name};
use crate::weight::Weight;
use std::alloc::{AllocError, Global};

/// Whether the weights of all that the row flags are known.
fn is_ready(row: &[bool], weights: &[Weight]) -> bool
    ensures { result ≡ false → (j : ℕ) × (j < length row.now) × (flag_at row.now j ≡ true) × (known_at weights.now j ≡ Open) }
{
    for j in 0..row.len() {
        if row[j] && weight_of_name(weights, j).is_open() {
            return false;
        }
    }
    true
}

/// Puts down the weight of the definition, and says whether it could.
fn learn(
    alloc: Global,
    definitions: &[Definition],
    uses: &[Vec<bool>],
    weights: &mut Vec<Weight>,
    i: usize,
) -> Result<bool, AllocError>
    requires each { length weights.old.items ≡ length definitions.now }
    requires place { i < length definitions.now }
    requires distinct { IsDistinct (defs definitions.now) }
    requires coded { AllCoded definitions.now }
    requires uses { AreUses (defs definitions.now) uses.now (length definitions.now) }
    ensures { IfOk result (λ more. Learns (defs definitions.now) weights.old.items weights.new.items i more) }
{
    if !weights[i].is_open() {
        return Ok(false);
    }
    if !is_ready(&uses[i], weights) {
        return Ok(false);
    }
    let weight = weigh(alloc, definitions, weights, &definitions[i].code)?;
    if weight.is_open() {
        return Ok(false);
    }
    weights[i] = weight;
    Ok(true)
}

/// Puts down each weight that follows from those that are known, and says whether there was one.
fn pass(
    alloc: Global,
    definitions: &[Definition],
    uses: &[Vec<bool>],
    weights: &mut Vec<Weight>,
) -> Result<bool, AllocError>
    requires each { length weights.old.items ≡ length definitions.now }
    requires distinct { IsDistinct (defs definitions.now) }
    requires coded { AllCoded definitions.now }
    requires uses { AreUses (defs definitions.now) uses.now (length definitions.now) }
    requires sure { IsSure (defs definitions.now) weights.old.items (known_count weights.old.items) }
    ensures { IfOk result (λ more. Passes (defs definitions.now) weights.old.items weights.new.items more (length definitions.now)) }
{
    let mut more = false;
    for i in 0..definitions.len() {
        let learnt = learn(alloc, definitions, uses, weights, i)?;
        if learnt {
            more = true;
        }
    }
    Ok(more)
}

/// The weight of what each definition stands for. That of one that reaches itself stays open.
pub fn settle(
    alloc: Global,
    definitions: &[Definition],
    uses: &[Vec<bool>],
) -> Result<Vec<Weight>, AllocError>
    requires distinct { IsDistinct (defs definitions.now) }
    requires coded { AllCoded definitions.now }
    requires uses { AreUses (defs definitions.now) uses.now (length definitions.now) }
    ensures { IfOk result (λ weights. IsSettled (defs definitions.now) weights.items) }
{
    let mut weights = Vec::new(alloc);
    for _ in 0..definitions.len() {
        weights.push(Weight::Open)?;
    }
    let mut goes_on = true;
    while goes_on {
        goes_on = pass(alloc, definitions, uses, &mut weights)?;
    }
    Ok(weights)
}

/// The weight at this place, unless one stays open.
pub fn settled_weight(weights: &[Weight], place: usize) -> Option<Weight>
    ensures value { IfSome result (λ weight. weight ≡ known_at weights.now place) }
    ensures some { IfSome result (λ weight. (i : ℕ) → i < length weights.now → known_at weights.now i ≢ Open) }
    ensures none { IfNone result ((i : ℕ) × (i < length weights.now) × (known_at weights.now i ≡ Open)) }
{
    for i in 0..weights.len() {
        if weights[i].is_open() {
            return None;
        }
    }
    Some(weight_of_name(weights, place))
}
