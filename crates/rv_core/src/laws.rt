//! Laws of the definitions, each the contract of a call that does nothing.
ghost use Rattle.rv_core.specs.Following.{WordsFollowActs};
ghost use Rattle.rv_core.specs.Judged.{TablesAreJudges};

/// What an act makes of its word is what it makes of the history that gives the word.
pub fn words_follow_acts()
    ensures { WordsFollowActs }
{}

/// What a word holds by the judges of specifications that the tables mean is what the tables' steps come to.
pub fn tables_are_judges()
    ensures { TablesAreJudges }
{}
