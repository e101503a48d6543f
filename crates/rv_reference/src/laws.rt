//! A law of the definitions, the contract of a call that does nothing.
ghost use Rattle.rv_reference.specs.JudgedSpecs.{EverySpecIsJudged};

/// Every specification has a judge, so that what is said of all its judges is said of one.
pub fn specifications_are_judged()
    ensures { EverySpecIsJudged }
{}
