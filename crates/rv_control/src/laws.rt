//! Laws of the definitions, the contracts of calls that do nothing: what a write leaves, and how much of a script decides
//! its commands.
ghost use Rattle.std.specs.Prelude.{◌≡◌, ◌≢◌, ◌⊎◌, ◌<◌, ◌++◌, ℕ, Bool, true, false, List, Some, Ok, length};
ghost use Rattle.rv_model.specs.declared.reactor.Reactor.{Reactor};
ghost use Rattle.rv_model.specs.declared.work.Change.{Change};
ghost use Rattle.rv_model.specs.Numbers.{has_bit};
ghost use Rattle.rv_model.specs.Reactors.{reactor_name};
ghost use Rattle.rv_model.specs.Reports.{line_end};
ghost use Rattle.rv_bind.specs.Fronts.{FrontDecides};
ghost use Rattle.rv_bind.specs.declared.bindings.Item.{Item};
ghost use Rattle.rv_control.specs.declared.orders.Order.TheVariants as orders;
ghost use Rattle.rv_control.specs.declared.paths.Path.{Path};
ghost use Rattle.rv_control.specs.declared.paths.Path.TheVariants as files;
ghost use Rattle.rv_control.specs.Effects.{no_change, order_of, without_end};
ghost use Rattle.rv_control.specs.FileTexts.{file_text, reactors_text};
ghost use Rattle.rv_control.specs.Paths.{path_of};
ghost use Rattle.rv_control.specs.Scripts.{script_of};
ghost use Rattle.rv_control.specs.Trees.{ControlValue, belongs_to};
ghost use Rattle.rv_control.specs.Writes.{AreFiles, ShowsFlag, Writes};

/// No answer depends on what a script has further than one byte past its limit.
pub fn front_decides()
    ensures { FrontDecides script_of }
{}

/// What was written is read back: a flag as it was written, and a reactor as the one in brackets.
pub fn writes_are_read_back()
    ensures flag { (tree after : ControlValue) → AreFiles tree → (path text : List ℕ) → (append : Bool) → (change : Change) → Writes tree path text append after change → (file : Path) → path_of tree path ≡ Some file → ShowsFlag tree file → file_text after path ≡ Ok (without_end text ++ line_end) }
    ensures reactor { (tree after : ControlValue) → AreFiles tree → (path text : List ℕ) → (append : Bool) → (change : Change) → Writes tree path text append after change → (place : ℕ) → path_of tree path ≡ Some (files.Reactors place) → place < length tree.monitors → (chosen : Reactor) × (without_end text ≡ reactor_name chosen) × (file_text after path ≡ Ok (reactors_text (Some chosen))) }
{}

/// A second equal write leaves the files as they are, and changes nothing at all unless it replaces what was enabled:
/// then it clears the monitors that it enables once more.
pub fn second_writes_change_nothing()
    ensures files { (tree after : ControlValue) → AreFiles tree → (path text : List ℕ) → (append : Bool) → (change : Change) → Writes tree path text append after change → (again : Change) × Writes after path text append after again }
    ensures quiet { (tree after : ControlValue) → AreFiles tree → (path text : List ℕ) → (append : Bool) → (change : Change) → Writes tree path text append after change → (path_of tree path ≢ Some files.EnabledMonitors) ⊎ (append ≡ true) → Writes after path text append after no_change }
{}

/// Of the monitors, whose switches are the first 32, a write clears exactly those that it switches on.
pub fn the_cleared_go_on()
    ensures { (tree after : ControlValue) → (path text : List ℕ) → (append : Bool) → (change : Change) → Writes tree path text append after change → (place : ℕ) → place < 32 → has_bit change.clear place ≡ has_bit change.raise place }
{}

/// After a name was written to the enabled monitors, and not appended, exactly the name's monitors are on.
pub fn the_named_alone_are_on()
    ensures { (tree after : ControlValue) → AreFiles tree → (path text : List ℕ) → (change : Change) → Writes tree path text false after change → (item : Item) → path_of tree path ≡ Some files.EnabledMonitors → order_of tree (without_end text) ≡ Some (orders.Enable item) → (place : ℕ) → place < length tree.monitors → has_bit after.switches place ≡ belongs_to tree item place }
{}
