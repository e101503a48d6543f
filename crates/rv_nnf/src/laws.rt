//! Laws of the normal form.
ghost use Rattle.std.specs.Prelude.{◌≡◌, ◌↔◌, ◌<◌, ◌-◌, ℕ, List, length, Bool, true, false, IsTrue};
ghost use Rattle.rv_text.specs.Readings.{refused_with};
ghost use Rattle.rv_model.specs.Ltl.{Ltl, Or, Release, WeakUntil};
ghost use Rattle.rv_model.specs.Formulas.{HasAtomsBelow};
ghost use Rattle.rv_model.specs.Meaning.{meaning, not_m};
ghost use Rattle.rv_model.specs.Truth.{View, Satisfies};
ghost use Rattle.rv_nnf.specs.NormalForm.{normal_of, parts_of};
ghost use Rattle.rv_nnf.specs.Parts.{PartValue, IsNormal, part_meaning, part_value_meaning, part_value_at};
ghost use Rattle.rv_nnf.specs.Tree.{tree_of, tree_meaning};

use rv_text::TOO_MANY_PARTS;

/// The normal form holds where the formula does, and that of the negation where the negation does.
pub fn normal_form_keeps_truth()
    ensures positive { (f : Ltl) (view : View) (letters : List ℕ) → tree_meaning (tree_of f true) view letters ≡ meaning f view letters }
    ensures negative { (f : Ltl) (view : View) (letters : List ℕ) → tree_meaning (tree_of f false) view letters ≡ not_m (meaning f) view letters }
{}

/// The normal form of `f weak_until g` is that of `g release (f or g)`, and their negations' are the same too.
pub fn weak_until_is_a_release()
    ensures { (f g : Ltl) (sign : Bool) → tree_of (WeakUntil f g) sign ≡ tree_of (Release g (Or f g)) sign }
{}

/// A part says what its operands make.
pub fn part_is_what_its_operands_make()
    ensures { (parts : List PartValue) → IsNormal parts → (k : ℕ) → part_meaning parts k ≡ part_value_meaning (part_meaning parts) (part_value_at parts k) }
{}

/// The numbered parts of a formula are a normal form, and the last says what the formula says. There is a
/// refusal exactly where there are more than 64.
pub fn last_part_is_the_formula()
    ensures normal { (f : Ltl) (parts : List PartValue) → HasAtomsBelow 32 f → normal_of f ≡ Ok parts → IsNormal parts }
    ensures holds { (f : Ltl) (parts : List PartValue) → HasAtomsBelow 32 f → normal_of f ≡ Ok parts → (view : View) (letters : List ℕ) →
        IsTrue (part_meaning parts (length parts - 1) view letters) ↔ Satisfies view letters f }
    ensures refused { (f : Ltl) → normal_of f ≡ refused_with TOO_MANY_PARTS ↔ 64 < length (parts_of (tree_of f true)) }
{}
