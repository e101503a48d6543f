//! A law of what the report of a failure names.
ghost use Rattle.rv_laws.specs.FailedStates.{FailureNamesItsState};

/// The report of an automaton's failure names the state in which the event was not allowed.
pub fn failures_name_their_state()
    ensures { FailureNamesItsState }
{}
