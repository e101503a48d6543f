//! Laws of the tableau.
ghost use Rattle.std.specs.Prelude.{◌≡◌, ◌≤◌, ℕ, List, [], ◌∷◌, true};
ghost use Rattle.std.specs.List.{list_any};
ghost use Rattle.rv_model.specs.declared.formula.Spec.TheVariants.{Ltl};
ghost use Rattle.rv_model.specs.Formulas.{RuleValue, IsRule};
ghost use Rattle.rv_model.specs.Judging.{Means};
ghost use Rattle.rv_model.specs.Table.{Table, of_labels};
ghost use Rattle.rv_nnf.specs.NormalForm.{normal_of};
ghost use Rattle.rv_nnf.specs.Parts.{PartValue, IsNormal};
ghost use Rattle.rv_tableau.specs.declared.pairs.Pair.{Pair};
ghost use Rattle.rv_tableau.specs.Cover.{cover_of};
ghost use Rattle.rv_tableau.specs.Holding.{set_holds, pair_holds};
ghost use Rattle.rv_tableau.specs.Rows.{IsComplete, MeansParts, table_rows, tableau_of};

/// A set of parts holds weakly on letters exactly where some pair of its cover has true labels on the first letter
/// and its parts hold weakly on the rest. On no letters every set holds.
pub fn cover_is_right()
    ensures letter { (parts : List PartValue) → IsNormal parts → (set x : ℕ) (rest : List ℕ) →
        set_holds parts set (x ∷ rest) ≡ list_any (pair_holds parts x rest) (cover_of parts set) }
    ensures empty { (parts : List PartValue) → IsNormal parts → (set : ℕ) → set_holds parts set [] ≡ true }
{}

/// The table of a complete list of nodes, in whatever order, reaches some row by letters exactly where the whole
/// formula's part holds weakly on them.
pub fn complete_is_right()
    ensures { (parts : List PartValue) → IsNormal parts → (nodes : List Pair) → IsComplete parts nodes → MeansParts (of_labels (table_rows parts nodes)) parts }
{}

/// The table of a rule means it: it reaches some row by letters exactly where the rule's formula holds weakly on them.
pub fn table_means_rule()
    ensures { (rule : RuleValue) → IsRule rule → (parts : List PartValue) (table : Table) →
        normal_of rule.formula ≡ Ok parts → tableau_of parts ≡ Ok table → Means table (Ltl rule) }
{}
