//! Laws of the findings, each the contract of a call that does nothing.
ghost use Rattle.rv_findings.specs.Watched.{CleanIsAllWatched, NoFindingIsAllWatched};
ghost use Rattle.rv_findings.specs.Zeros.{BindingsFindingsAreZeros, TraceFindingsAreZeros};

/// No finding, and so status 0, means that all is watched: every number that a finding is about is above zero.
pub fn all_is_watched()
    ensures none { NoFindingIsAllWatched }
    ensures status { CleanIsAllWatched }
{}

/// A finding of a kind stands on a line exactly where its number is zero.
pub fn findings_are_zeros()
    ensures bindings { BindingsFindingsAreZeros }
    ensures trace { TraceFindingsAreZeros }
{}
