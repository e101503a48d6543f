//! Looks for the next line in the bytes that are held of a stream, skipped or not.
ghost use Rattle.std.specs.Prelude.{◌≡◌, ◌≤◌, ◌+◌, ◌||◌, length, nat_lt, IfSome, IfNone};
ghost use Rattle.rv_trace.specs.Held.{LooksAt};
ghost use Rattle.rv_trace.specs.inner.Seeking.{EndsAt, HasNoLineEnd};
ghost use Rattle.rv_trace.specs.inner.SeekingLines.{SeeksLine};

use crate::seek::{At, is_whole, line_to, read_at};
use crate::taken::TakenLine;
use crate::trace::MAX_BYTES;
use rv_text::{Refusal, line_end, next_number, past_line_end};

/// The line that was found, and where to look on.
#[derive(Clone, Copy, Drop)]
pub struct SoughtLine {
    pub at: At,
    /// Where the line stands that was found.
    pub from: usize,
    pub to: usize,
    pub read: Result<Option<TakenLine>, Refusal>,
}

/// No line was found from here on, and it is looked on from here.
#[inline(always)]
fn stay(at: At, read: Result<Option<TakenLine>, Refusal>) -> SoughtLine
    ensures { result ≡ record { at = at; from = 0; to = 0; read = read } }
{
    SoughtLine {
        at,
        from: 0,
        to: 0,
        read,
    }
}

/// Where the next line ends. That nothing can follow is asked only where no line end stands in what is held.
#[inline(always)]
fn next_to(held: &[u8], passed: usize, start: At, ended: bool) -> Option<usize>
    requires looks { LooksAt held.now start.from start.searched }
    requires fits { passed + start.from ≤ MAX_BYTES }
    ensures some { IfSome result (EndsAt held.now start.from (ended || nat_lt MAX_BYTES (passed + length held.now))) }
    ensures none { IfNone result (HasNoLineEnd held.now start.from (ended || nat_lt MAX_BYTES (passed + length held.now))) }
{
    let to = line_end(held, start.searched);
    if to < held.len() {
        return Some(to);
    }
    line_to(held, start, is_whole(ended, passed + held.len()))
}

/// The next line, skipped or not.
#[inline(always)]
pub fn seek_line(held: &[u8], passed: usize, start: At, ended: bool) -> SoughtLine
    requires looks { LooksAt held.now start.from start.searched }
    requires fits { passed + start.from ≤ MAX_BYTES }
    ensures { SeeksLine held.now passed start ended result }
{
    let Some(to) = next_to(held, passed, start, ended) else {
        let searched = held.len();
        return stay(At { searched, ..start }, Ok(None));
    };
    let end = past_line_end(held, to);
    let read = read_at(held, start.from, to, start.number, passed + end);
    let found = match read {
        Ok(found) => found,
        Err(refusal) => return stay(start, Err(refusal)),
    };
    SoughtLine {
        at: At {
            from: end,
            searched: end,
            number: next_number(start.number),
        },
        from: start.from,
        to,
        read: Ok(Some(TakenLine {
            number: start.number,
            found,
        })),
    }
}
