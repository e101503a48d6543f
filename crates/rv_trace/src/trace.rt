//! All lines of a trace.
ghost use Rattle.std.specs.Prelude.{◌≡◌, ◌≤◌, ◌+◌, length, IfOk};
ghost use Rattle.std.specs.List.{All};
ghost use Rattle.rv_text.specs.Readings.{Gives};
ghost use Rattle.rv_text.specs.TextLines.{line_text};
ghost use Rattle.rv_trace.specs.Lines.{LiesIn};
ghost use Rattle.rv_trace.specs.Traces.{reading_of, trace_of};

use crate::line::{TraceLine, read_text};
use rv_text::{Cursor, Refusal, Refused, TOO_LONG, TextLine, push_some};
use std::alloc::Global;

/// How many lines a trace may have.
pub const MAX_LINES: u32 = 1_000_000;
/// How many bytes a trace may have.
pub const MAX_BYTES: usize = 134_217_728;

#[tactic(auto, unfolding(crate::specs::Traces::reading_of))]
#[inline(always)]
pub(crate) fn reading_of(line: TextLine) -> Result<Option<TraceLine>, Refusal>
    requires { line.from + length line.bytes.now ≤ line.end }
    ensures { result ≡ reading_of (line_text line.entry) }
{
    if line.number > MAX_LINES || line.end > MAX_BYTES {
        return Err(Refusal::at(TOO_LONG, line.number));
    }
    read_text(line.bytes, line.from as u32, line.number)
}

/// All lines that are not skipped, in order.
pub fn read_trace(alloc: Global, bytes: &[u8]) -> Result<Vec<TraceLine>, Refused>
    requires { length bytes.now ≤ 134217729 }
    ensures value { Gives (λ lines. lines.items) result (trace_of bytes.now) }
    ensures within { IfOk result (λ lines. All (LiesIn bytes.now) lines.items) }
{
    let mut lines = Vec::new(alloc);
    let mut cursor = Cursor::new(bytes);
    while let Some(line) = cursor.next_line() {
        let read = reading_of(line)?;
        push_some(&mut lines, read)?;
    }
    Ok(lines)
}
