//! Laws of the generated input, of refusals, of printed journals, and of what files may come to, each the contract of a call
//! that does nothing.
ghost use Rattle.rv_tool.specs.GeneratedBound.{LoadIsBound, LoadIsAccepted};
ghost use Rattle.rv_tool.specs.KnownFiles.{AcceptedIsWellFormed, KnownFilesMayCome};
ghost use Rattle.rv_tool.specs.PrintedJournals.{PrintedIsYes, PrintedIsJudgedYes};
ghost use Rattle.rv_tool.specs.Steps.{AreRefusedByStep, NoInstance};

/// The generated bindings and automata are accepted: two monitors and seven rules.
pub fn load_is_bound()
    ensures { LoadIsBound }
{}

/// The generated input is one: from 1 to 15,625 blocks are accepted, no reactor is panic, and no two CPUs have deliveries
/// for one slot.
pub fn load_is_accepted()
    ensures { LoadIsAccepted }
{}

/// On any store a command is refused by the numbers of its steps; and on known files 37 comes only where the run does not
/// have the instance.
pub fn refusals_have_steps()
    ensures steps { AreRefusedByStep }
    ensures no_instance { NoInstance }
{}

/// `check` says `yes` of what `journal` printed of the same input; so do two calls, where a name then has what the first one
/// printed, and the files that the run reads are the same.
pub fn check_says_yes()
    ensures input { PrintedIsYes }
    ensures calls { PrintedIsJudgedYes }
{}

/// Whatever files say, bindings that are accepted are well formed, and a trace that is accepted under them has works that
/// fit them; and what a command comes to on known files is what it may come to on any store.
pub fn known_files_may_come()
    ensures formed { AcceptedIsWellFormed }
    ensures come { KnownFilesMayCome }
{}
