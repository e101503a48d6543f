//! What the words of the command line ask for.
ghost use Rattle.rv_tool.specs.Words.{load, load_of, command_of, table_command, header_command, texts_of};
ghost use Rattle.rv_tool.specs.inner.Words.{command_value, IsWellNamed};
ghost use Rattle.std.specs.Prelude.{◌≡◌, ◌∷◌, [], Some, option_map, bytes_eq, IfSome};
ghost use Rattle.rv_text.specs.Decimal.{decimal_of};

use rv_gen::MAX_BLOCKS;
use rv_header::is_header_name;
use rv_model::SpecKind;
use rv_text::decimal;

/// A command, and the files that it names.
#[derive(Clone, Copy, Drop)]
pub(crate) enum ToolCommand<'a> {
    Replay {
        bindings: &'a str,
        trace: &'a str,
    },
    Feed {
        bindings: &'a str,
        trace: &'a str,
    },
    FeedBeside {
        bindings: &'a str,
        trace: &'a str,
        script: &'a str,
    },
    Journal {
        bindings: &'a str,
        trace: &'a str,
    },
    Check {
        bindings: &'a str,
        trace: &'a str,
        journal: &'a str,
    },
    Watch {
        bindings: &'a str,
        trace: &'a str,
        monitor: &'a str,
        instance: &'a str,
    },
    Control {
        bindings: &'a str,
        script: &'a str,
    },
    Table {
        kind: SpecKind,
        file: &'a str,
    },
    Header {
        name: &'a str,
        file: &'a str,
    },
    Load {
        blocks: u32,
    },
}

/// Whether the word is this one.
fn is(word: &str, said: &str) -> bool
    ensures { result ≡ bytes_eq word.now said.now }
{
    word == said
}

/// The command `header`, if the word may be the name of C tables.
fn header_with<'a>(name: &'a str, file: &'a str) -> Option<ToolCommand<'a>>
    ensures value { option_map command_value result ≡ header_command name.now file.now }
    ensures named { IfSome result IsWellNamed }
{
    if !is_header_name(name.as_bytes()) {
        return None;
    }
    Some(ToolCommand::Header { name, file })
}

/// The command `table`, if the word is a kind of specification.
fn table_with<'a>(kind: &str, file: &'a str) -> Option<ToolCommand<'a>>
    ensures value { option_map command_value result ≡ table_command kind.now file.now }
    ensures named { IfSome result IsWellNamed }
{
    match SpecKind::from_name(kind.as_bytes()) {
        Some(kind) => Some(ToolCommand::Table { kind, file }),
        None => None,
    }
}

/// The command of two further words, if they make one.
fn with_second<'a>(word: &str, first: &'a str, second: &'a str) -> Option<ToolCommand<'a>>
    ensures value { option_map command_value result ≡ command_of (word.now ∷ first.now ∷ second.now ∷ []) }
    ensures named { IfSome result IsWellNamed }
{
    let bindings = first;
    let trace = second;
    let script = second;
    if is(word, "replay") {
        Some(ToolCommand::Replay { bindings, trace })
    } else if is(word, "feed") {
        Some(ToolCommand::Feed { bindings, trace })
    } else if is(word, "journal") {
        Some(ToolCommand::Journal { bindings, trace })
    } else if is(word, "control") {
        Some(ToolCommand::Control { bindings, script })
    } else if is(word, "table") {
        table_with(first, second)
    } else if is(word, "header") {
        header_with(first, second)
    } else {
        None
    }
}

/// How many blocks the word asks for, if so many may be loaded.
fn blocks_of(number: &str) -> Option<u32>
    ensures { option_map load result ≡ load_of (decimal_of number.now) }
{
    match decimal(number.as_bytes()) {
        Some(blocks) if blocks >= 1 && blocks <= MAX_BLOCKS as u64 => Some(blocks as u32),
        _ => None,
    }
}

/// The command of one further word, if they make one.
fn load_with<'a>(word: &str, number: &str) -> Option<ToolCommand<'a>>
    ensures value { option_map command_value result ≡ command_of (word.now ∷ number.now ∷ []) }
    ensures named { IfSome result IsWellNamed }
{
    if !is(word, "load") {
        return None;
    }
    match blocks_of(number) {
        Some(blocks) => Some(ToolCommand::Load { blocks }),
        None => None,
    }
}

/// The command of three further words, if they make one.
fn with_third<'a>(
    word: &str,
    bindings: &'a str,
    trace: &'a str,
    third: &'a str,
) -> Option<ToolCommand<'a>>
    ensures value { option_map command_value result ≡ command_of (word.now ∷ bindings.now ∷ trace.now ∷ third.now ∷ []) }
    ensures named { IfSome result IsWellNamed }
{
    if is(word, "feed") {
        Some(ToolCommand::FeedBeside {
            bindings,
            trace,
            script: third,
        })
    } else if is(word, "check") {
        Some(ToolCommand::Check {
            bindings,
            trace,
            journal: third,
        })
    } else {
        None
    }
}

/// The command of four further words, if they make one.
fn watch_with<'a>(
    word: &str,
    bindings: &'a str,
    trace: &'a str,
    monitor: &'a str,
    instance: &'a str,
) -> Option<ToolCommand<'a>>
    ensures value { option_map command_value result ≡ command_of (word.now ∷ bindings.now ∷ trace.now ∷ monitor.now ∷ instance.now ∷ []) }
    ensures named { IfSome result IsWellNamed }
{
    if !is(word, "watch") {
        return None;
    }
    Some(ToolCommand::Watch {
        bindings,
        trace,
        monitor,
        instance,
    })
}

/// The command that the words are, if they are one.
pub(crate) fn read_words(words: &[String]) -> Option<ToolCommand<'_>>
    ensures value { option_map command_value result ≡ command_of (texts_of words.now) }
    ensures named { IfSome result IsWellNamed }
{
    if words.len() == 2 {
        return load_with(words[0].as_str(), words[1].as_str());
    }
    if words.len() == 4 {
        return with_third(
            words[0].as_str(),
            words[1].as_str(),
            words[2].as_str(),
            words[3].as_str(),
        );
    }
    if words.len() == 5 {
        return watch_with(
            words[0].as_str(),
            words[1].as_str(),
            words[2].as_str(),
            words[3].as_str(),
            words[4].as_str(),
        );
    }
    if words.len() != 3 {
        return None;
    }
    with_second(words[0].as_str(), words[1].as_str(), words[2].as_str())
}
