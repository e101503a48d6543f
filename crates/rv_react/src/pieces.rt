//! A text is appended piece by piece.
ghost use Rattle.rv_react.specs.Appending.{Appends};
ghost use Rattle.rv_react.specs.inner.Parts.{joined};

use rv_text::Line;
use std::alloc::AllocError;

/// Appends the pieces, in their order.
pub(crate) fn append(out: &mut Line, pieces: &[&[u8]]) -> Result<(), AllocError>
    ensures { Appends out.old out.new (joined pieces.now) result }
{
    for piece in pieces {
        out.text(piece)?;
    }
    Ok(())
}
