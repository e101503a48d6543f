//! A law of what is read, the contract of a call that does nothing.
ghost use Rattle.rv_coverage.specs.ReplayReads.{ReadsAsReplay};

/// The two files are read, refused and missed as a replay of them is.
pub fn coverage_reads_as_replay()
    ensures { ReadsAsReplay }
{}
