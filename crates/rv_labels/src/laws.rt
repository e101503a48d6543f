//! Laws of cubes.
ghost use Rattle.std.specs.Prelude.{◌≡◌, ◌↔◌, ◌≤◌, ℕ, Bool, Any, true, false, IsTrue, length};
ghost use Rattle.rv_model.specs.Ltl.{Ltl};
ghost use Rattle.rv_model.specs.Meaning.{true_on};
ghost use Rattle.rv_labels.specs.Cubes.{cubes_of};
ghost use Rattle.rv_labels.specs.Holding.{Meets};
ghost use Rattle.rv_labels.specs.Sizes.{size_of};

/// A letter meets one of a label's cubes exactly where the label is true on it, and one of its denial's exactly where it is not.
pub fn cubes_say_the_label()
    ensures positive { (label : Ltl) (letter : ℕ) → Any (Meets letter) (cubes_of label true) ↔ IsTrue (true_on letter label) }
    ensures negative { (label : Ltl) (letter : ℕ) → Any (Meets letter) (cubes_of label false) ↔ ¬ IsTrue (true_on letter label) }
{}

/// No list has more cubes than are counted.
pub fn lists_are_within_their_sizes()
    ensures { (label : Ltl) (sign : Bool) → length (cubes_of label sign) ≤ size_of label sign }
{}
