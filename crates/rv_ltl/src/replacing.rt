//! The rule of a file's definitions, or the first refusal; a formula is written out only where its weight is known to be small.

ghost use Rattle.std.specs.Prelude.{◌≡◌, ◌≤◌, ◌<◌, length, IfOk, IfSome};
ghost use Rattle.rv_text.specs.Readings.{Refuses};
ghost use Rattle.rv_ltl.specs.inner.Machine.{defs, AllCoded};
ghost use Rattle.rv_ltl.specs.Replace.{once, is_none, value_of, any_endless};
ghost use Rattle.rv_ltl.specs.inner.Weights.{def_at, weighed, IsDistinct};
ghost use Rattle.rv_ltl.specs.inner.Reached.{AreUses};
ghost use Rattle.rv_ltl.specs.inner.Collected.{CollectsReached};
ghost use Rattle.rv_ltl.specs.inner.Rules.{GivesAtoms};

use crate::atoms::atoms;
use crate::definitions::Definition;
use crate::reached::reached;
use crate::settle::{settle, settled_weight};
use crate::uses::{index, uses};
use crate::weight::Weight;
use rv_text::{CYCLE, DEFINED_TWICE, NO_RULE, Refusal, Refused, TOO_BIG, TOO_MANY_ATOMS};
use std::alloc::{AllocError, Global};

/// Whether no name is defined twice.
fn once(definitions: &[Definition]) -> bool
    ensures { result ≡ once (defs definitions.now) }
{
    for i in 0..definitions.len() {
        match index(definitions, definitions[i].name) {
            Some(first) if first == i => {}
            _ => return false,
        }
    }
    true
}

/// The refusal of this number, which names no line.
pub fn refused(number: u8) -> Refused
    ensures { result ≡ Refused.Because (record { number = number; line = 0 }) }
{
    Refused::Because(Refusal::whole(number))
}

/// The weight of what the definition at this place stands for, unless some definition reaches itself.
fn weight_at(
    alloc: Global,
    definitions: &[Definition],
    uses: &[Vec<bool>],
    place: usize,
) -> Result<Option<Weight>, AllocError>
    requires place { place < length (defs definitions.now) }
    requires distinct { IsDistinct (defs definitions.now) }
    requires coded { AllCoded definitions.now }
    requires uses { AreUses (defs definitions.now) uses.now (length definitions.now) }
    ensures ends { IfOk result (λ weight. any_endless (defs definitions.now) (defs definitions.now) ≡ is_none weight) }
    ensures value { IfOk result (λ weight. IfSome weight (λ w. w ≡ weighed (value_of (defs definitions.now) (length (defs definitions.now)) (def_at (defs definitions.now) place).name))) }
{
    let weights = settle(alloc, definitions, uses)?;
    Ok(settled_weight(&weights, place))
}

/// The names that the definitions which this one reaches leave undefined, ascending; none where there are more than 32.
fn reached_atoms(
    alloc: Global,
    definitions: &[Definition],
    uses: &[Vec<bool>],
    place: usize,
) -> Result<Option<Vec<usize>>, AllocError>
    requires place { place < length uses.now }
    requires coded { AllCoded definitions.now }
    ensures { IfOk result (λ atoms. CollectsReached (defs definitions.now) uses.now place (length definitions.now) atoms) }
{
    let flags = reached(alloc, uses, place)?;
    atoms(alloc, definitions, &flags)
}

/// The atoms of the formula that the name root stands for, where that formula is within the limits.
pub fn limited_atoms(
    alloc: Global,
    definitions: &[Definition],
    root: usize,
) -> Result<Vec<usize>, Refused>
    requires { AllCoded definitions.now }
    ensures { GivesAtoms (defs definitions.now) root result }
{
    let Some(place) = index(definitions, root) else {
        return Err(refused(NO_RULE));
    };
    if !once(definitions) {
        return Err(refused(DEFINED_TWICE));
    }
    let uses = uses(alloc, definitions)?;
    let Some(weight) = weight_at(alloc, definitions, &uses, place)? else {
        return Err(refused(CYCLE));
    };
    let Some(out) = reached_atoms(alloc, definitions, &uses, place)? else {
        return Err(refused(TOO_MANY_ATOMS));
    };
    match weight {
        Weight::Is(_) => Ok(out),
        _ => Err(refused(TOO_BIG)),
    }
}
