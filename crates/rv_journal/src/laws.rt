//! A law of the definitions, the contract of a call that does nothing.
ghost use Rattle.rv_journal.specs.JournalReadings.{JournalsAreReadAgain, JournalsHaveOneHistory};

/// A journal's text and its history determine each other: read line by line it is the history, and no other.
pub fn journals_are_read_again()
    ensures lines { JournalsAreReadAgain }
    ensures one { JournalsHaveOneHistory }
{}
