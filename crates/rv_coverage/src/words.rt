//! What the words of the command line ask for.
ghost use Rattle.std.specs.Prelude.{◌≡◌, option_map};
ghost use Rattle.rv_tool.specs.Words.{texts_of};
ghost use Rattle.rv_coverage.specs.Words.{coverage_command_of};
ghost use Rattle.rv_coverage.specs.inner.Words.{coverage_command_value};

/// The two files of a replay, and whether each edge that was not taken is a finding.
#[derive(Clone, Copy, Drop)]
pub(crate) struct CoverageCommand<'a> {
    pub(crate) bindings: &'a str,
    pub(crate) trace: &'a str,
    pub(crate) edges: bool,
}

/// The command that the words are, if they are one.
pub(crate) fn read_words(words: &[String]) -> Option<CoverageCommand<'_>>
    ensures { option_map coverage_command_value result ≡ coverage_command_of (texts_of words.now) }
{
    if words.len() == 2 {
        return Some(CoverageCommand {
            bindings: words[0].as_str(),
            trace: words[1].as_str(),
            edges: false,
        });
    }
    if words.len() == 3 && words[2].as_str() == "edges" {
        return Some(CoverageCommand {
            bindings: words[0].as_str(),
            trace: words[1].as_str(),
            edges: true,
        });
    }
    None
}
