//! Scripts of control commands, a line each.
ghost use Rattle.std.specs.Prelude.{◌≡◌, ◌∷◌, Option, List, option_to_list, IfOk};
ghost use Rattle.rv_text.specs.Readings.{Gives};
ghost use Rattle.rv_text.specs.TextLines.{line_text};
ghost use Rattle.rv_control.specs.Scripts.{script_command_with, script_command_of, line_said, commands_of_line, script_of};

use rv_model::Name;
use rv_text::{CONTROL_SYNTAX, Cursor, Refusal, Refused, TextLine, Words, push_some};
use std::alloc::{AllocError, Global};

/// The last byte at which a line of a script may end.
pub const SCRIPT_LIMIT: usize = 1_048_576;

/// What is done with a control file.
#[derive(Debug, Drop)]
pub enum Command {
    /// Its text is printed.
    Read {
        path: Name,
    },
    /// The text is written to it, in place of what it holds or behind it.
    Write {
        path: Name,
        text: Name,
        append: bool,
    },
}

/// A command, and the line that it stands on.
#[derive(Debug, Drop)]
pub struct Numbered {
    /// Counted from 1, skipped lines too.
    pub line: u32,
    pub command: Command,
}

/// A write of this text, or of none.
fn write(
    alloc: Global,
    path: &[u8],
    text: &[u8],
    append: bool,
) -> Result<Option<Command>, AllocError>
    ensures { IfOk result (λ command. command ≡ Some (Command.Write path.now text.now append)) }
{
    let path = Name::new(alloc, path)?;
    let text = Name::new(alloc, text)?;
    Ok(Some(Command::Write { path, text, append }))
}

/// A read.
fn read(alloc: Global, path: &[u8]) -> Result<Option<Command>, AllocError>
    ensures { IfOk result (λ command. command ≡ Some (Command.Read path.now)) }
{
    let path = Name::new(alloc, path)?;
    Ok(Some(Command::Read { path }))
}

/// The command of a verb and a path.
fn without_text(alloc: Global, verb: &[u8], path: &[u8]) -> Result<Option<Command>, AllocError>
    ensures { IfOk result (λ command. command ≡ script_command_with verb.now path.now None) }
{
    if verb == b"read".as_slice() {
        read(alloc, path)
    } else if verb == b"write".as_slice() {
        write(alloc, path, b"", false)
    } else if verb == b"append".as_slice() {
        write(alloc, path, b"", true)
    } else {
        Ok(None)
    }
}

/// The command of a verb, a path, and the text that is written.
fn with_text(
    alloc: Global,
    verb: &[u8],
    path: &[u8],
    text: &[u8],
) -> Result<Option<Command>, AllocError>
    ensures { IfOk result (λ command. command ≡ script_command_with verb.now path.now (Some text.now)) }
{
    if verb == b"write".as_slice() {
        write(alloc, path, text, false)
    } else if verb == b"append".as_slice() {
        write(alloc, path, text, true)
    } else {
        Ok(None)
    }
}

/// The command of a line, whose first word was taken.
fn read_command(
    alloc: Global,
    verb: &[u8],
    words: &mut Words<'_>,
) -> Result<Option<Command>, AllocError>
    ensures { IfOk result (λ command. command ≡ script_command_of (verb.now ∷ words.old)) }
{
    let Some(path) = words.next_word() else {
        return Ok(None);
    };
    let Some(text) = words.next_word() else {
        return without_text(alloc, verb, path);
    };
    match words.next_word() {
        Some(_) => Ok(None),
        None => with_text(alloc, verb, path, text),
    }
}

/// The command of a line, where it is not skipped.
fn read_line(alloc: Global, line: &TextLine<'_>) -> Result<Option<Numbered>, Refused>
    ensures { Gives option_to_list result (line_said (line_text line.now)) }
{
    let number = line.number;
    let refused = Refused::Because(Refusal::at(CONTROL_SYNTAX, number));
    if line.end > SCRIPT_LIMIT {
        return Err(refused);
    }
    let mut words = Words::new(line.bytes);
    let Some(first) = words.next_word() else {
        return Ok(None);
    };
    if first.starts_with("#".as_bytes()) {
        return Ok(None);
    }
    match read_command(alloc, first, &mut words)? {
        Some(command) => Ok(Some(Numbered {
            line: number,
            command,
        })),
        None => Err(refused),
    }
}

/// The commands of a script in order, or the first line that has none of the forms.
pub fn read_script(alloc: Global, bytes: &[u8]) -> Result<Vec<Numbered>, Refused>
    ensures { Gives (λ commands. commands.items) result (script_of bytes.now) }
{
    let mut commands = Vec::new(alloc);
    let mut lines = Cursor::new(bytes);
    while let Some(line) = lines.next_line() {
        let read = read_line(alloc, &line)?;
        push_some(&mut commands, read)?;
    }
    Ok(commands)
}
