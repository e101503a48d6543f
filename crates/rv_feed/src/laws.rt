//! A law of the definitions, the contract of a call that does nothing.
ghost use Rattle.rv_feed.specs.Existence.{OneExists};

/// What lanes have to do has a history of one thread, where the tables mean the specifications.
pub fn one_thread_has_a_history()
    ensures { OneExists }
{}
