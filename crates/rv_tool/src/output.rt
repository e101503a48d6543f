//! The texts of refusals and missing files, and how a text is put out.
ghost use Rattle.std.specs.Prelude.{◌≡◌, ◌++◌, OnOk, IfOk, option_copied};
ghost use Rattle.rv_tool.specs.Calls.{sink_state};
ghost use Rattle.rv_tool.specs.Output.{refusal_text, missing_text, in_file_text, in_line_text, IsWritten};

use rv_io::{PutFault, Sink, put_all};
use rv_text::{Line, Refusal, UNWRITTEN};
use std::alloc::{AllocError, Global};

/// The line of a refusal, which names its file and its line where it has them.
pub(crate) fn refusal_line(
    alloc: Global,
    file: Option<&[u8]>,
    refusal: Refusal,
) -> Result<Vec<u8>, AllocError>
    ensures { IfOk result (λ text. text.items ≡ refusal_text (option_copied file.entry) refusal) }
{
    let mut line = Line::new(alloc);
    line.text(b"rv: refused ")?;
    line.number(refusal.number as u64)?;
    in_file(&mut line, file)?;
    at_line(&mut line, refusal.line)?;
    line.text(b"\n")?;
    Ok(line.into_bytes())
}

/// Names the file, if there is one.
fn in_file(line: &mut Line, file: Option<&[u8]>) -> Result<(), AllocError>
    ensures { OnOk result (line.new ≡ line.old ++ in_file_text (option_copied file.entry)) }
{
    if let Some(name) = file {
        line.text(b" in ")?;
        line.text(name)?;
    }
    Ok(())
}

/// Names the line, where it is not 0.
fn at_line(line: &mut Line, number: u32) -> Result<(), AllocError>
    ensures { OnOk result (line.new ≡ line.old ++ in_line_text number) }
{
    if number > 0 {
        line.text(b" line ")?;
        line.number(number as u64)?;
    }
    Ok(())
}

/// The line of a file that cannot be read.
pub(crate) fn missing_line(alloc: Global, file: &[u8]) -> Result<Vec<u8>, AllocError>
    ensures { IfOk result (λ text. text.items ≡ missing_text file.now) }
{
    let mut line = Line::new(alloc);
    line.text(b"rv: cannot read ")?;
    line.text(file)?;
    line.text(b"\n")?;
    Ok(line.into_bytes())
}

/// Puts a text, and answers the status that goes with it, or `UNWRITTEN` where a put failed.
pub(crate) fn put_text<K: Sink>(out: &mut K, text: &[u8], status: u8) -> u8
    ensures { IsWritten (sink_state K.Sink out.old) (sink_state K.Sink out.new) text.now status result }
{
    match put_all(out, text) {
        Ok(()) => status,
        Err(PutFault) => UNWRITTEN,
    }
}
