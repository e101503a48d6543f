//! The lines of a stream that is fed in pieces and never held whole.
ghost use Rattle.std.specs.Prelude.{◌≡◌, ◌≤◌, ◌++◌, ◌&&◌, [], true, false, not, drop, take, length, vec_capacity, IsTrue, IfOk, IfSome, IfNone, OnOk, OnErr};
ghost use Rattle.rv_trace.specs.AnyLines.{IsReadOn, TakesNextAny};
ghost use Rattle.rv_trace.specs.Lines.{LiesIn};
ghost use Rattle.rv_trace.specs.Streams.{TakesNextLine};

use crate::line::TraceLine;
use crate::seek::{At, seek};
use crate::seek_line::seek_line;
use crate::taken::TakenLine;
use crate::trace::MAX_BYTES;
use rv_model::GhostList;
use rv_text::Refusal;
use std::alloc::{AllocError, Global};
use std::marker::Model;

/// The lines of a stream. It holds the last piece and what the line has before it that was not yet ended.
#[derive(Drop)]
pub struct Lines {
    stream: GhostList<u8>,
    held: Vec<u8>,
    /// How many bytes of the stream stand before those that are held.
    passed: usize,
    at: At,
    /// Where the line stands that was last taken.
    first: usize,
    last: usize,
    ended: bool,
    idle: bool,
}

impl Model for Lines {
    ghost use Rattle.std.specs.Prelude.{◌+◌};
    ghost use Rattle.rv_text.specs.Places.{between};
    ghost use Rattle.rv_trace.specs.Streams.{Stream};

    ghost Value = { Stream };

    ghost use Rattle.rv_trace.specs.Held.{IsHeldPart};

    ghost view = { λ l. record { fed = l.stream; taken = l.passed + l.at.from; text = between l.held.items l.first l.last; ended = l.ended; idle = l.idle } };

    ghost invariant = { λ l. IsHeldPart l.stream l.held.items l.passed l.at.from l.at.searched l.at.number l.first l.last l.ended };
}

/// Lets go of so many bytes at the front.
fn let_go(held: &mut Vec<u8>, count: usize)
    requires { count ≤ length held.old.items }
    ensures items { held.new.items ≡ drop count held.old.items }
    ensures capacity { vec_capacity held.new ≡ vec_capacity held.old }
{
    if count > 0 {
        let kept = held.len() - count;
        held.as_mut_slice().copy_within(count.., 0);
        held.truncate(kept);
    }
}

impl Lines {
    /// No byte was fed. No memory is taken.
    pub fn new(alloc: Global) -> Lines
        ensures { result ≡ record { fed = []; taken = 0; text = []; ended = false; idle = true } }
    {
        Lines {
            stream: GhostList::new(),
            held: Vec::new(alloc),
            passed: 0,
            at: At {
                from: 0,
                searched: 0,
                number: 1,
            },
            first: 0,
            last: 0,
            ended: false,
            idle: true,
        }
    }

    /// The stream grows by the piece. The text of the last line is let go.
    pub fn feed(&mut self, piece: &[u8]) -> Result<(), AllocError>
        requires open { self.old.ended ≡ false }
        requires idle { self.old.idle ≡ true }
        ensures ok { OnOk result (self.new ≡ record self.old { fed = self.old.fed ++ piece.now; text = []; idle = false }) }
        ensures err { OnErr result (self.new ≡ self.old) }
        ensures kept { OnOk result (take self.new.taken self.new.fed ≡ take self.old.taken self.old.fed) }
    {
        // Room comes first, so that nothing is let go before a refusal.
        self.held.reserve(piece.len().saturating_sub(self.at.from))?;
        let_go(&mut self.held, self.at.from);
        self.held.extend_from_slice(piece).unwrap();
        self.stream.append(piece);
        self.passed += self.at.from;
        self.at = At {
            from: 0,
            searched: self.at.searched - self.at.from,
            number: self.at.number,
        };
        self.first = 0;
        self.last = 0;
        self.idle = false;
        Ok(())
    }

    /// The stream has ended. No memory is taken.
    pub fn finish(&mut self)
        requires open { self.old.ended ≡ false }
        requires idle { self.old.idle ≡ true }
        ensures { self.new ≡ record self.old { ended = true; idle = false } }
    {
        self.ended = true;
        self.idle = false;
    }

    /// Whether a piece may be fed, or the stream may end: it has not ended, and no line is left of what was fed.
    pub fn is_ready(&self) -> bool
        ensures value { result ≡ (self.now.idle && not self.now.ended) }
        ensures open { IsTrue result → self.now.ended ≡ false }
        ensures idle { IsTrue result → self.now.idle ≡ true }
    {
        self.idle && !self.ended
    }

    /// The next line that is not skipped, or None where no line is left of what can be read: before the end of the
    /// stream that is all up to its last line end. After a refusal each call refuses the same. A call that gives no line
    /// leaves the empty text. No memory is taken.
    pub fn take(&mut self) -> Result<Option<TraceLine>, Refusal>
        ensures takes { TakesNextLine self.old self.new result }
        ensures lies { IfOk result (λ found. IfSome found (LiesIn self.new.text)) }
        ensures none { IfOk result (λ found. IfNone found (self.new.text ≡ [])) }
        ensures refused { OnErr result (self.new.text ≡ []) }
        ensures small { length self.new.text ≤ MAX_BYTES }
    {
        let sought = seek(self.held.as_slice(), self.passed, self.at, self.ended);
        self.at = sought.at;
        self.first = sought.from;
        self.last = sought.to;
        self.idle = matches!(sought.read, Ok(None));
        sought.read
    }

    /// The next line, skipped or not, or None where no line is left of what can be read. What was read on it is counted
    /// from its own first byte. After a refusal each call refuses the same. A call that gives no line leaves the empty
    /// text, and passes none. No memory is taken.
    #[inline(always)]
    pub fn take_any(&mut self) -> Result<Option<TakenLine>, Refusal>
        ensures takes { TakesNextAny self.old self.new result }
        ensures read { IfOk result (λ found. IfSome found (IsReadOn self.new.text)) }
        ensures none { IfOk result (λ found. IfNone found (self.new.text ≡ [])) }
        ensures refused { OnErr result (self.new.text ≡ []) }
        ensures small { length self.new.text ≤ MAX_BYTES }
    {
        let told = seek_line(self.held.as_slice(), self.passed, self.at, self.ended);
        self.at = told.at;
        self.first = told.from;
        self.last = told.to;
        self.idle = matches!(told.read, Ok(None));
        told.read
    }

    /// The line that the last call of `take` or `take_any` gave, without its line end, in which its spans are places; empty
    /// where that gave none, and after `feed`. No memory is taken.
    pub fn text(&self) -> &[u8]
        ensures { result.now ≡ self.now.text }
    {
        &self.held.as_slice()[self.first..self.last]
    }
}
