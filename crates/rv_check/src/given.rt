//! Lines that only contracts see. They take no memory, and their calls do nothing at run time.
ghost use Rattle.std.specs.Prelude.{◌≡◌, [], ◌∷◌, ◌++◌};

use rv_model::{GhostList, Keeps};
use rv_text::Line;

/// The lines that were given, the first one first.
pub(crate) type Given = GhostList<Line>;

/// Lines, and one more.
#[derive(Drop)]
struct OneMore<'a> {
    given: &'a Given,
    line: &'a [u8],
}

impl<'a> Keeps<Line> for OneMore<'a> {
    ghost list = { λ l. l.given.now ++ l.line.now ∷ [] };
}

/// The list grows by this line.
pub(crate) fn push(given: &mut Given, line: &[u8])
    ensures { given.new ≡ given.old ++ line.now ∷ [] }
{
    let longer = Given::of(&OneMore { given, line });
    *given = longer;
}
