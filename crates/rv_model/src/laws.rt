//! Laws of the definitions, each the contract of a call that does nothing.
ghost use Rattle.std.specs.Prelude.{◌↔◌, ℕ, List, IsTrue};
ghost use Rattle.rv_model.specs.GoodLetters.{GoodLetters};
ghost use Rattle.rv_model.specs.Histories.{OneHasNoStop, OneIsUnique};
ghost use Rattle.rv_model.specs.Ltl.{Ltl};
ghost use Rattle.rv_model.specs.Meaning.{meaning};
ghost use Rattle.rv_model.specs.Meant.{TablesMean, TablesJudge};
ghost use Rattle.rv_model.specs.Slots.{SlotsApart};
ghost use Rattle.rv_model.specs.Sorting.{RecordsAscend};
ghost use Rattle.rv_model.specs.Stepping.{EveryTableIsJudged, JudgesAreOne};
ghost use Rattle.rv_model.specs.Truth.{View, Satisfies};

/// The test that computes says what satisfaction is.
pub fn satisfaction_is_tested()
    ensures { (formula : Ltl) (view : View) (letters : List ℕ) → IsTrue (meaning formula view letters) ↔ Satisfies view letters formula }
{}

/// Good letters stay good where their end is cut off.
pub fn letters_may_be_cut()
    ensures { GoodLetters }
{}

/// Every table has a judge by its paths, and only one.
pub fn tables_are_judged()
    ensures some { EveryTableIsJudged }
    ensures one { JudgesAreOne }
{}

/// The table of an automaton means it.
pub fn tables_mean()
    ensures mean { TablesMean }
    ensures judge { TablesJudge }
{}

/// One thread has one history, which stops nothing.
pub fn one_history()
    ensures stop { OneHasNoStop }
    ensures unique { OneIsUnique }
{}

/// What a slot is doing is told by the entries on it alone.
pub fn slots_apart()
    ensures { SlotsApart }
{}

/// Sorted records are told by their orders.
pub fn records_ascend()
    ensures { RecordsAscend }
{}
