//! Whether a formula holds on letters, by its words (Eisner and others, 2003).
ghost use Rattle.std.specs.Prelude.{◌≡◌, ◌↔◌, map, IsTrue};
ghost use Rattle.rv_model.specs.Letters.{atoms_in};
ghost use Rattle.rv_model.specs.Formulas.{ltl};
ghost use Rattle.rv_model.specs.Meaning.{is_weak, meaning};
ghost use Rattle.rv_model.specs.Truth.{other, Satisfies};
ghost use Rattle.rv_reference.specs.Views.{view_of};

use crate::bits::has_bit;
use rv_model::{Formula, Letter};

/// How letters that may go on are judged.
#[derive(Clone, Copy, Debug, Drop, PartialEq, Eq)]
pub enum View {
    /// All holds of no letter.
    Weak,
    /// Nothing holds of no letter.
    Strong,
}

impl View {
    /// The view that `not` asks of its operand.
    fn other(self) -> View
        ensures { view_of result ≡ other (view_of self) }
    {
        match self {
            View::Weak => View::Strong,
            View::Strong => View::Weak,
        }
    }

    fn is_weak(self) -> bool
        ensures { result ≡ is_weak (view_of self) }
    {
        match self {
            View::Weak => true,
            View::Strong => false,
        }
    }
}

/// Whether the formula holds on the letters in the view.
pub fn satisfies(formula: &Formula, view: View, letters: &[Letter]) -> bool
    ensures { IsTrue result ↔ Satisfies (view_of view) (map atoms_in letters.now) (ltl formula.now) }
{
    tested(formula, view, letters)
}

/// The atoms that hold in the letter.
pub fn atoms_of(letter: Letter) -> u32
    ensures { result ≡ atoms_in letter }
{
    match letter {
        Letter::Event(_) => 0,
        Letter::Atoms(set) => set,
    }
}

fn tested(formula: &Formula, view: View, letters: &[Letter]) -> bool
    ensures { result ≡ meaning (ltl formula.now) (view_of view) (map atoms_in letters.now) }
{
    let [first, rest @ ..] = letters else {
        return view.is_weak();
    };
    match formula {
        Formula::True => true,
        Formula::False => false,
        Formula::Atom(atom) => has_bit(atoms_of(*first) as u64, *atom as u64),
        Formula::Not(f) => !tested(f, view.other(), letters),
        Formula::Next(f) => tested(f, view, rest),
        Formula::And(f, g) => tested(f, view, letters) && tested(g, view, letters),
        Formula::Or(f, g) => tested(f, view, letters) || tested(g, view, letters),
        Formula::Imply(f, g) => !tested(f, view.other(), letters) || tested(g, view, letters),
        Formula::Equivalent(f, g) => {
            let both = tested(f, view, letters) && tested(g, view, letters);
            let other = view.other();
            both || (!tested(f, other, letters) && !tested(g, other, letters))
        }
        Formula::Until(f, g) => {
            tested(g, view, letters) || (tested(f, view, letters) && tested(formula, view, rest))
        }
        Formula::Release(f, g) => {
            tested(g, view, letters) && (tested(f, view, letters) || tested(formula, view, rest))
        }
        Formula::WeakUntil(f, g) => {
            tested(g, view, letters) || (tested(f, view, letters) && tested(formula, view, rest))
        }
        Formula::Eventually(f) => tested(f, view, letters) || tested(formula, view, rest),
        Formula::Always(f) => tested(f, view, letters) && tested(formula, view, rest),
    }
}
