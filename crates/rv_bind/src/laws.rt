//! Laws of the definitions, the contracts of calls that do nothing: what bindings may come to, how much of a text
//! decides an answer, how lines are written, and what a name names.
ghost use Rattle.std.specs.Prelude.{◌≡◌, ◌↔◌, ℕ, List, Ok, Some, bytes_eq, position, slice_get};
ghost use Rattle.rv_text.specs.TextLines.{lines_of};
ghost use Rattle.rv_io.specs.Files.{Files};
ghost use Rattle.rv_dot.specs.Dot.{dot_of};
ghost use Rattle.rv_ltl.specs.RuleFile.{ltl_of};
ghost use Rattle.rv_bind.specs.declared.bindings.Monitor.{Monitor};
ghost use Rattle.rv_bind.specs.Bound.{bound_of, lines_bound, monitor_named, nothing_bound};
ghost use Rattle.rv_bind.specs.DisplayNames.{display_name_of, display_names};
ghost use Rattle.rv_bind.specs.Forms.{FormValue, form_of};
ghost use Rattle.rv_bind.specs.Fronts.{FrontDecides, HaveSameFronts};
ghost use Rattle.rv_bind.specs.LineWords.{Words};
ghost use Rattle.rv_bind.specs.Lines.{IsLineOf};
ghost use Rattle.rv_bind.specs.Outcomes.{Outcome, IsBindingsNumber, IsRefusedBy};
ghost use Rattle.rv_bind.specs.Possible.{MayBound};
ghost use Rattle.rv_bind.specs.Values.{BoundValue};
ghost use Rattle.rv_bind.specs.WellFormed.{NamesDiffer, IsWellFormed};

/// Bindings, with the specifications that they name, are refused by their own numbers, on any store.
pub fn bindings_have_numbers()
    ensures { (here : List ℕ) → (o : Outcome BoundValue) → MayBound here o → IsRefusedBy IsBindingsNumber o }
{}

/// What known files come to may come on any store.
pub fn known_files_may_come()
    ensures { (files : Files) → (here : List ℕ) → MayBound here (bound_of files here) }
{}

/// No answer depends on what a text has further than one byte past its limit: not of an automaton, of a rule or of
/// bindings, and not of bindings with all files that they name.
pub fn fronts_decide()
    ensures automata { FrontDecides dot_of }
    ensures rules { FrontDecides ltl_of }
    ensures bindings { (files : Files) → (here : List ℕ) → FrontDecides (λ text. lines_bound files here nothing_bound (lines_of text)) }
    ensures files { (files others : Files) → HaveSameFronts files others → (here : List ℕ) → bound_of files here ≡ bound_of others here }
{}

/// In accepted bindings no two containers or monitors have one display name, and a monitor's name and its display name
/// are those of no other monitor, so that the first monitor of a name is the one that is meant.
pub fn display_names_differ()
    ensures displayed { (b : BoundValue) → IsWellFormed b → NamesDiffer (display_names b) }
    ensures first { (b : BoundValue) → IsWellFormed b → (place : ℕ) → (m : Monitor) → slice_get b.monitors place ≡ Some m → monitor_named b m.name ≡ Some place }
    ensures first_displayed { (b : BoundValue) → IsWellFormed b → (place : ℕ) → (m : Monitor) → slice_get b.monitors place ≡ Some m → position (λ other. bytes_eq (display_name_of b other) (display_name_of b m)) b.monitors ≡ Some place }
{}

/// A line has exactly the form that it is a line of.
pub fn the_lines()
    ensures { (words : Words) → (form : FormValue) → form_of words ≡ Ok form ↔ IsLineOf words form }
{}
