//! Formulas as tables.
ghost use Rattle.std.specs.Prelude.{◌≤◌};
ghost use Rattle.rv_text.specs.Readings.{and_then, Gives};
ghost use Rattle.rv_model.specs.Formulas.{ltl, HasAtomsBelow};
ghost use Rattle.rv_model.specs.Weights.{weight};
ghost use Rattle.rv_nnf.specs.NormalForm.{normal_of};
ghost use Rattle.rv_tableau.specs.Rows.{tableau_of};

use rv_model::Formula;
use rv_nnf::normal;
use rv_table::Table;
use rv_tableau::tableau;
use rv_text::Refused;
use std::alloc::Global;

/// The table of a formula, by its normal form.
pub fn formula_table(alloc: Global, formula: &Formula) -> Result<Table, Refused>
    requires atoms { HasAtomsBelow 32 (ltl formula.now) }
    requires light { weight (ltl formula.now) ≤ 1024 }
    ensures { Gives (λ table. table) result (and_then (normal_of (ltl formula.now)) tableau_of) }
{
    let parts = normal(alloc, formula)?;
    tableau(alloc, &parts)
}
