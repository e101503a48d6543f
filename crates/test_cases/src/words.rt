//! Words of a command line and of a list's line, paths, and the files that they name.

use crate::fault::CaseFault;
use rv_io::{Disk, Store};
use rv_text::{Words, decimal};
use std::alloc::Global;
use std::fs::Files;

/// The words of a line.
pub(crate) fn words_of(alloc: Global, line: &[u8]) -> Result<Vec<String>, CaseFault> {
    let mut made = Vec::new(alloc);
    let mut words = Words::new(line);
    while let Some(word) = words.next_word() {
        made.push(String::from_str(alloc, std::str::from_utf8(word)?)?)?;
    }
    Ok(made)
}

/// The words of a replay.
pub(crate) fn replay_of(
    alloc: Global,
    bindings: &str,
    trace: &str,
) -> Result<Vec<String>, CaseFault> {
    let mut made = Vec::new(alloc);
    for word in ["replay", bindings, trace] {
        made.push(String::from_str(alloc, word)?)?;
    }
    Ok(made)
}

/// These pieces, one behind the other.
pub(crate) fn joined(alloc: Global, pieces: &[&str]) -> Result<String, CaseFault> {
    let mut text = String::new(alloc);
    for piece in pieces {
        text.push_str(piece)?;
    }
    Ok(text)
}

/// The bytes of the file whose path these pieces are.
pub(crate) fn read<R: Files>(rt: &R, alloc: Global, pieces: &[&str]) -> Result<Vec<u8>, CaseFault> {
    let path = joined(alloc, pieces)?;
    Ok(Disk::new(rt).read(alloc, path.as_str())?)
}

/// The text of this name in the folder.
pub(crate) fn text_in<R: Files>(
    rt: &R,
    alloc: Global,
    folder: &str,
    name: &[u8],
) -> Result<Vec<u8>, CaseFault> {
    let name = std::str::from_utf8(name)?;
    read(rt, alloc, &[folder, "/", name, ".txt"])
}

/// The next word of a line.
pub(crate) fn next_word<'a>(entry: &mut Words<'a>) -> Result<&'a str, CaseFault> {
    let word = entry.next_word().ok_or(CaseFault)?;
    Ok(std::str::from_utf8(word)?)
}

/// The number that is the next word of a line.
pub(crate) fn next_decimal(entry: &mut Words<'_>) -> Result<u64, CaseFault> {
    let word = entry.next_word().ok_or(CaseFault)?;
    decimal(word).ok_or(CaseFault)
}
