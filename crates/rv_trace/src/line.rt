//! One line of trace text.
ghost use Rattle.std.specs.Prelude.{◌≡◌, ◌<◌, ◌≤◌, ◌+◌, ◌^◌, length, slice_index, slice_range, EachIndex, ◌≢◌, Ok, Some};
ghost use Rattle.rv_text.specs.Readings.{and_then};
ghost use Rattle.rv_trace.specs.Lines.{is_skipped, is_lost, said, line_of};
ghost use Rattle.rv_trace.specs.inner.LineParts.{HasHeadNumbers};

use crate::parts::{ReadParts, parts_of};
use crate::runs::{blanks_end, byte_at};
use rv_text::{LOST_EVENTS, Refusal, TOO_MANY_CPUS, TRACE_SYNTAX};

/// The largest PID that there may be.
pub const LAST_PID: u32 = 4_294_967_295;
/// The largest number that a CPU may have.
pub const LAST_CPU: u8 = 63;

/// A piece of the text, by its places.
#[derive(Clone, Copy, Debug, Drop, PartialEq, Eq)]
pub struct Span {
    pub from: u32,
    pub to: u32,
}

/// What a line says.
#[derive(Clone, Copy, Debug, Drop, PartialEq, Eq)]
pub struct TraceLine {
    /// Counted from 1, skipped lines too.
    pub number: u32,
    /// The PID of the task that ran.
    pub pid: u32,
    /// The CPU that it ran on.
    pub cpu: u8,
    /// The event's name.
    pub name: Span,
    /// All that follows the colon behind the name.
    pub fields: Span,
}

#[tactic(auto, unfolding(crate::specs::Lines::is_skipped))]
fn is_skipped(text: &[u8]) -> bool
    ensures { result ≡ is_skipped text.now }
{
    blanks_end(text, 0) == text.len() || byte_at(text, 0) == b'#'
}

/// Whether the line says that events were lost.
#[tactic(auto, unfolding(crate::specs::Lines::is_lost))]
fn is_lost(text: &[u8]) -> bool
    ensures { result ≡ is_lost text.now }
{
    byte_at(text, 0) == b'C' && text.starts_with(b"CPU:") && text.ends_with(b"EVENTS]")
}

/// What the parts say of a line that stands at a place of a text.
#[inline(always)]
fn said(text: &[u8], from: u32, number: u32, found: ReadParts) -> Result<Option<TraceLine>, Refusal>
    requires numbers { HasHeadNumbers text.now found.parts.head found.pid found.cpu }
    requires order { found.parts.name.from ≤ found.parts.name.to }
    requires within { found.parts.name.to < length text.now }
    requires fits { from + length text.now < 2 ^ 32 }
    ensures { result ≡ and_then (said text.now from number found.parts) (λ line. Ok (Some line)) }
{
    if found.pid > LAST_PID as u64 {
        return Err(Refusal::at(TRACE_SYNTAX, number));
    }
    if found.cpu > LAST_CPU as u64 {
        return Err(Refusal::at(TOO_MANY_CPUS, number));
    }
    let name = found.parts.name;
    Ok(Some(TraceLine {
        number,
        pid: found.pid as u32,
        cpu: found.cpu as u8,
        name: Span {
            from: from + name.from as u32,
            to: from + name.to as u32,
        },
        fields: Span {
            from: from + (name.to as u32 + 1),
            to: from + text.len() as u32,
        },
    }))
}

/// Reads a line that stands at a place of a text.
#[inline(always)]
#[tactic(auto, unfolding(crate::specs::Lines::line_of))]
pub fn read_text(text: &[u8], from: u32, number: u32) -> Result<Option<TraceLine>, Refusal>
    requires { from + length text.now < 2 ^ 32 }
    ensures { result ≡ line_of text.now from number }
{
    if is_skipped(text) {
        return Ok(None);
    }
    if is_lost(text) {
        return Err(Refusal::at(LOST_EVENTS, number));
    }
    match parts_of(text) {
        Some(found) => said(text, from, number, found),
        None => Err(Refusal::at(TRACE_SYNTAX, number)),
    }
}

/// Reads the line that stands from one place of the text up to another. It is None where it is skipped.
pub fn read_line(
    bytes: &[u8],
    from: u32,
    to: u32,
    number: u32,
) -> Result<Option<TraceLine>, Refusal>
    requires order { from ≤ to }
    requires within { to ≤ length bytes.now }
    requires one { EachIndex (slice_range bytes.now from to) (λ k. slice_index (slice_range bytes.now from to) k ≢ 10) }
    ensures { result ≡ line_of (slice_range bytes.now from to) from number }
{
    read_text(&bytes[from as usize..to as usize], from, number)
}
