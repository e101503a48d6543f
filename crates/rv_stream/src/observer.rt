//! What is told of each line of a trace.
ghost use Rattle.std.specs.Prelude.{◌≤◌, List, OnOk, length};
ghost use Rattle.rv_text.specs.TextLines.{LineText};
ghost use Rattle.rv_stream.specs.Observing.{ObservesLine};
ghost use Rattle.rv_trace.specs.AnyLines.{IsReadOn};

use rv_trace::{MAX_BYTES, TakenLine};
use std::alloc::{AllocError, Global};

/// What looks at the lines of a trace while it is read, or keeps of them what it wants.
pub trait LineObserver {
    /// What it is told with each line, and does not keep.
    type Context;

    /// Of a trace that begins with these lines, it is what it has to be.
    ghost observed: { Self.Context → List LineText → Self → Type 0 };

    /// The line of this text comes next, skipped or not.
    fn observe(
        &mut self,
        alloc: Global,
        context: &Self::Context,
        text: &[u8],
        taken: &TakenLine,
    ) -> Result<(), AllocError>
        requires read { IsReadOn text.now taken.now }
        requires small { length text.now ≤ MAX_BYTES }
        requires so_far { (lines : List LineText) × observed context.now lines self.old }
        ensures { OnOk result (ObservesLine (observed context.now) text.now taken.now self.old self.new) };
}

/// It looks at no line.
#[derive(Clone, Copy, Debug, Drop, PartialEq, Eq)]
pub struct NoObserver;

impl LineObserver for NoObserver {
    type Context = ();

    ghost observed = { λ context lines self. Unit {0} };

    #[inline(always)]
    fn observe(
        &mut self,
        _alloc: Global,
        _context: &(),
        _text: &[u8],
        _taken: &TakenLine,
    ) -> Result<(), AllocError> {
        Ok(())
    }
}
