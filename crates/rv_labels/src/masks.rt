//! A label as its cubes, or as the formula where there are too many.
ghost use Rattle.std.specs.Prelude.{◌≡◌, IfOk, option_map};
ghost use Rattle.std.specs.List.{list_any};
ghost use Rattle.std.specs.Option.{option_copied};
ghost use Rattle.rv_model.specs.Formulas.{ltl};
ghost use Rattle.rv_model.specs.Meaning.{true_on};
ghost use Rattle.rv_labels.specs.Holding.{meets};
ghost use Rattle.rv_model.specs.Labels.{IsLabel};
ghost use Rattle.rv_labels.specs.Sizes.{cubes_if_few};

use crate::cube::Cube;
use crate::expanding::expand;
use crate::sizes::{MOST_CUBES, size};
use crate::truth::is_true;
use rv_model::Formula;
use std::alloc::{AllocError, Global};
use std::marker::Model;

/// A label, which contracts see as plain data, and beside it its cubes, unless there are too many.
pub struct Masks {
    label: Formula,
    cubes: Option<Vec<Cube>>,
}

/// Taken apart once, here, so that what drops one has nothing to prove of its parts.
impl Drop for Masks {
    fn drop(self) {
        let Masks { label: _, cubes: _ } = self;
    }
}

impl Model for Masks {
    ghost use Rattle.std.specs.Prelude.{◌≡◌, option_map};
    ghost use Rattle.rv_model.specs.Ltl.{Ltl};
    ghost use Rattle.rv_model.specs.LtlCode.{coded_ltl};
    ghost use Rattle.rv_model.specs.Formulas.{ltl};
    ghost use Rattle.rv_model.specs.Labels.{IsLabel};
    ghost use Rattle.rv_labels.specs.Sizes.{cubes_if_few};

    ghost Value = { Ltl };

    ghost coded = { coded_ltl };

    ghost view = { λ m. ltl m.label };

    ghost invariant = { λ m. IsLabel (ltl m.label) × (option_map (λ v. v.items) m.cubes ≡ cubes_if_few (ltl m.label)) };
}

impl Masks {
    /// The label as masks.
    pub fn new(alloc: Global, label: &Formula) -> Result<Masks, AllocError>
        requires { IsLabel (ltl label.now) }
        ensures { IfOk result (λ masks. masks ≡ ltl label.now) }
    {
        let cubes = if size(label, true) > MOST_CUBES {
            None
        } else {
            Some(expand(alloc, label, true, true)?)
        };
        let label = label.copy(alloc)?;
        Ok(Masks { label, cubes })
    }

    /// The label itself.
    pub fn label(&self) -> &Formula
        ensures { ltl result.now ≡ self.now }
    {
        &self.label
    }

    /// The cubes, unless more than 64 are counted.
    pub fn cubes(&self) -> Option<&[Cube]>
        ensures { option_copied result ≡ cubes_if_few self.now }
    {
        match &self.cubes {
            Some(cubes) => Some(cubes),
            None => None,
        }
    }

    /// Whether the label is true on the letter.
    pub fn holds(&self, atoms: u32) -> bool
        ensures { result ≡ true_on atoms self.now }
    {
        match &self.cubes {
            Some(cubes) => some_holds(cubes, atoms),
            None => is_true(&self.label, atoms),
        }
    }
}

/// Whether the letter meets one of the cubes.
fn some_holds(cubes: &[Cube], atoms: u32) -> bool
    ensures { result ≡ list_any (meets atoms) cubes.now }
{
    for cube in cubes {
        if cube.holds(atoms) {
            return true;
        }
    }
    false
}
