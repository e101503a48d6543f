//! The pieces of which facts and findings are made.
ghost use Rattle.std.specs.Prelude.{◌≡◌, ◌++◌, ◌<◌, ◌/◌, ◌%◌, flat_map, OnOk, slice_index};
ghost use Rattle.rv_model.specs.Reports.{line_end};
ghost use Rattle.rv_facts.specs.Shown.{counted_fact, hex_digit, in_brackets, is_plain, lines_text, numbered, shown, shown_byte, worded};

use crate::counts::Counted;
use rv_text::Line;
use std::alloc::AllocError;

/// The digit of base 16.
fn hex_digit(n: u8) -> u8
    requires { n < 16 }
    ensures { result ≡ hex_digit n }
{
    if n < 10 { b'0' + n } else { b'a' - 10 + n }
}

/// Whether the byte is printed as it is.
fn is_plain(byte: u8) -> bool
    ensures { result ≡ is_plain byte }
{
    byte > b' ' && byte < 127 && byte != b'\\'
}

/// Appends a byte of a file.
fn put_byte(out: &mut Line, byte: u8) -> Result<(), AllocError>
    ensures { OnOk result (out.new ≡ out.old ++ shown_byte byte) }
{
    if is_plain(byte) {
        out.text(&[byte])
    } else {
        out.text(b"\\x")?;
        out.text(&[hex_digit(byte / 16), hex_digit(byte % 16)])
    }
}

/// Appends a word of a file.
pub(crate) fn put_shown(out: &mut Line, word: &[u8]) -> Result<(), AllocError>
    ensures { OnOk result (out.new ≡ out.old ++ shown word.now) }
{
    'bytes: for byte in word {
        put_byte(out, *byte)?;
    }
    Ok(())
}

/// Appends a text, and then a word of a file.
pub fn put_word(out: &mut Line, front: &[u8], word: &[u8]) -> Result<(), AllocError>
    ensures { OnOk result (out.new ≡ out.old ++ worded front.now word.now) }
{
    out.text(front)?;
    put_shown(out, word)
}

/// Appends a number behind its name.
pub fn put_number(out: &mut Line, name: &[u8], n: u64) -> Result<(), AllocError>
    ensures { OnOk result (out.new ≡ out.old ++ numbered name.now n) }
{
    out.text(name)?;
    out.text(b" ")?;
    out.number(n)
}

/// Appends a number in brackets.
pub fn put_brackets(out: &mut Line, n: u64) -> Result<(), AllocError>
    ensures { OnOk result (out.new ≡ out.old ++ in_brackets n) }
{
    out.text(b" (")?;
    out.number(n)?;
    out.text(b")")
}

/// Appends a number behind its name, and the end of a line.
pub(crate) fn put_number_end(out: &mut Line, name: &[u8], n: u64) -> Result<(), AllocError>
    ensures { OnOk result (out.new ≡ out.old ++ numbered name.now n ++ line_end) }
{
    put_number(out, name, n)?;
    out.text(b"\n")
}

/// Appends a number of lines, and the end of a line.
pub(crate) fn put_lines(out: &mut Line, n: u64) -> Result<(), AllocError>
    ensures { OnOk result (out.new ≡ out.old ++ lines_text n) }
{
    put_number_end(out, b": lines", n)
}

/// Appends a word that was counted, as a fact that begins so.
fn put_counted(out: &mut Line, front: &[u8], counted: &Counted) -> Result<(), AllocError>
    ensures { OnOk result (out.new ≡ out.old ++ counted_fact front.now counted.now) }
{
    out.text(front)?;
    put_shown(out, counted.word.bytes())?;
    put_lines(out, counted.lines)
}

/// Appends a fact of each of the words.
pub(crate) fn put_all_counted(
    out: &mut Line,
    front: &[u8],
    words: &[Counted],
) -> Result<(), AllocError>
    ensures { OnOk result (out.new ≡ out.old ++ flat_map (counted_fact front.now) words.now) }
{
    'words: for counted in words {
        put_counted(out, front, counted)?;
    }
    Ok(())
}

/// The number at this place, and 0 behind the last one.
pub fn number_at(numbers: &[u64], place: usize) -> u64
    ensures { result ≡ slice_index numbers.now place }
{
    if place < numbers.len() {
        numbers[place]
    } else {
        0
    }
}

/// The line at this place, and 0 behind the last one.
pub fn line_at(lines: &[u32], place: usize) -> u32
    ensures { result ≡ slice_index lines.now place }
{
    if place < lines.len() { lines[place] } else { 0 }
}
