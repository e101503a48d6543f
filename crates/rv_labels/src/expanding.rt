//! From a label to its cubes.
//! Two lists are made to be joined only where neither is counted as empty, so that none is longer than the size of the whole.
ghost use Rattle.std.specs.Prelude.{◌≡◌, [], ◌∷◌, IfOk, false, if◌then◌else◌};
ghost use Rattle.rv_model.specs.Formulas.{ltl};
ghost use Rattle.rv_labels.specs.Cubes.{whole_if, cubes_of, cube_unions};
ghost use Rattle.rv_model.specs.Labels.{IsLabel};

use crate::cube::{Cube, of_atom};
use crate::joining::combine;
use crate::sizes::size;
use rv_model::Formula;
use std::alloc::{AllocError, Global};

/// A list of one.
fn one(alloc: Global, cube: Cube) -> Result<Vec<Cube>, AllocError>
    ensures { IfOk result (λ cubes. cubes.items ≡ cube ∷ []) }
{
    let mut cubes = Vec::new(alloc);
    cubes.push(cube)?;
    Ok(cubes)
}

/// The cube that every letter meets, or none.
fn whole(alloc: Global, some: bool) -> Result<Vec<Cube>, AllocError>
    ensures { IfOk result (λ cubes. cubes.items ≡ whole_if some) }
{
    if !some {
        return Ok(Vec::new(alloc));
    }
    one(alloc, Cube { need: 0, forbid: 0 })
}

/// Whether neither list is counted as empty; where one is, so are the joined lists.
#[tactic(auto, using(crate::proofs::SizeLemmas::none_cube_unions))]
fn are_some(left: &Formula, left_sign: bool, right: &Formula, right_sign: bool) -> bool
    ensures { result ≡ false → cube_unions (cubes_of (ltl left.now) left_sign) (cubes_of (ltl right.now) right_sign) ≡ [] }
{
    size(left, left_sign) != 0 && size(right, right_sign) != 0
}

/// The cubes of a label or of its negation, if they are wanted.
#[tactic(auto, using(crate::proofs::SizeLemmas::cube_unions_if))]
pub fn expand(
    alloc: Global,
    label: &Formula,
    positive: bool,
    wanted: bool,
) -> Result<Vec<Cube>, AllocError>
    requires { IsLabel (ltl label.now) }
    ensures { IfOk result (λ cubes. cubes.items ≡ (if wanted then cubes_of (ltl label.now) positive else [])) }
{
    if !wanted {
        return Ok(Vec::new(alloc));
    }
    match label {
        Formula::True => whole(alloc, positive),
        Formula::Atom(atom) => one(alloc, of_atom(*atom, positive)),
        Formula::Not(f) => expand(alloc, f, !positive, true),
        Formula::And(f, g) => {
            let wanted = !positive || are_some(f, positive, g, positive);
            let left = expand(alloc, f, positive, wanted)?;
            let right = expand(alloc, g, positive, wanted)?;
            combine(alloc, left, right, positive)
        }
        Formula::Or(f, g) => {
            let wanted = positive || are_some(f, positive, g, positive);
            let left = expand(alloc, f, positive, wanted)?;
            let right = expand(alloc, g, positive, wanted)?;
            combine(alloc, left, right, !positive)
        }
        Formula::Imply(f, g) => {
            let wanted = positive || are_some(f, !positive, g, positive);
            let left = expand(alloc, f, !positive, wanted)?;
            let right = expand(alloc, g, positive, wanted)?;
            combine(alloc, left, right, !positive)
        }
        Formula::Equivalent(f, g) => {
            let first = are_some(f, true, g, positive);
            let yes = expand(alloc, f, true, first)?;
            let with_yes = expand(alloc, g, positive, first)?;
            let front = combine(alloc, yes, with_yes, true)?;
            let second = are_some(f, false, g, !positive);
            let no = expand(alloc, f, false, second)?;
            let with_no = expand(alloc, g, !positive, second)?;
            let back = combine(alloc, no, with_no, true)?;
            combine(alloc, front, back, false)
        }
        _ => whole(alloc, !positive),
    }
}
