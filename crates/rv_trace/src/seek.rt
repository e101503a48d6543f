//! Looks for the next line in the bytes that are held of a stream.
ghost use Rattle.std.specs.Prelude.{◌≡◌, ◌≤◌, ◌+◌, ◌||◌, length, nat_lt, IfSome, IfNone};
ghost use Rattle.rv_text.specs.Places.{between};
ghost use Rattle.rv_trace.specs.Held.{LooksAt};
ghost use Rattle.rv_trace.specs.inner.Seeking.{EndsAt, HasNoLineEnd, Seeks};
ghost use Rattle.rv_trace.specs.Traces.{reading_of};

use crate::line::TraceLine;
use crate::trace::{MAX_BYTES, reading_of};
use rv_text::{Refusal, TextLine, line_end, next_number, past_line_end};

/// Where the next line is looked for.
#[derive(Clone, Copy, Drop)]
pub struct At {
    /// Where it begins.
    pub from: usize,
    /// Up to here no line end stands in it.
    pub searched: usize,
    /// Its number.
    pub number: u32,
}

/// What was found, and where to look on.
#[derive(Clone, Copy, Drop)]
pub struct Sought {
    pub at: At,
    /// Where the line stands that was found.
    pub from: usize,
    pub to: usize,
    pub read: Result<Option<TraceLine>, Refusal>,
}

/// Where the line ends that begins here: at its line end, or at the end where nothing can follow.
pub(crate) fn line_to(held: &[u8], at: At, whole: bool) -> Option<usize>
    requires { LooksAt held.now at.from at.searched }
    ensures some { IfSome result (EndsAt held.now at.from whole) }
    ensures none { IfNone result (HasNoLineEnd held.now at.from whole) }
{
    let to = line_end(held, at.searched);
    if to < held.len() {
        return Some(to);
    }
    if whole && at.from < to {
        return Some(to);
    }
    None
}

/// Whether nothing that follows can change what is read.
pub(crate) fn is_whole(ended: bool, length: usize) -> bool
    ensures { result ≡ (ended || nat_lt MAX_BYTES length) }
{
    ended || length > MAX_BYTES
}

/// Reads a line, whose spans are counted from its own first byte, and which ends here in the stream.
#[inline(always)]
pub(crate) fn read_at(
    held: &[u8],
    from: usize,
    to: usize,
    number: u32,
    end: usize,
) -> Result<Option<TraceLine>, Refusal>
    requires order { from ≤ to }
    requires within { to ≤ length held.now }
    requires ended { to ≤ end }
    ensures { result ≡ reading_of (record { number = number; from = 0; bytes = between held.now from to; end = end }) }
{
    let start = 0;
    reading_of(TextLine {
        number,
        from: start,
        bytes: &held[from..to],
        end,
    })
}

/// The next line that is not skipped.
pub fn seek(held: &[u8], passed: usize, start: At, ended: bool) -> Sought
    requires looks { LooksAt held.now start.from start.searched }
    requires fits { passed + start.from ≤ MAX_BYTES }
    ensures { Seeks held.now passed start ended result }
{
    let whole = is_whole(ended, passed + held.len());
    let mut at = start;
    while let Some(to) = line_to(held, at, whole) {
        let end = past_line_end(held, to);
        let read = read_at(held, at.from, to, at.number, passed + end);
        let next = At {
            from: end,
            searched: end,
            number: next_number(at.number),
        };
        match read {
            Ok(found) => match found {
                None => at = next,
                Some(_) => {
                    return Sought {
                        at: next,
                        from: at.from,
                        to,
                        read,
                    };
                }
            },
            Err(_) => {
                return Sought {
                    at: At {
                        from: at.from,
                        searched: at.searched,
                        number: at.number,
                    },
                    from: 0,
                    to: 0,
                    read,
                };
            }
        }
    }
    Sought {
        at: At {
            from: at.from,
            searched: held.len(),
            number: at.number,
        },
        from: 0,
        to: 0,
        read: Ok(None),
    }
}
