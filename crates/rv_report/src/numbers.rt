//! Numbers behind texts.
ghost use Rattle.std.specs.Prelude.{◌≡◌, ◌++◌, OnOk, decimal};

use rv_text::Line;
use std::alloc::AllocError;

/// Appends a text, and then a number.
pub(crate) fn put_text_number(out: &mut Line, text: &[u8], n: u64) -> Result<(), AllocError>
    ensures { OnOk result (out.new ≡ out.old ++ text.now ++ decimal n) }
{
    out.text(text)?;
    out.number(n)
}
