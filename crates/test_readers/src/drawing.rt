//! Automaton files by their canonical texts.
ghost use Rattle.std.specs.Prelude.{Ok};
ghost use Rattle.rv_text.specs.Readings.{and_then, Gives};
ghost use Rattle.rv_dot.specs.Canonical.{dot_text};
ghost use Rattle.rv_dot.specs.Dot.{dot_of};

use rv_dot::{read_dot, write_dot};
use rv_text::Refused;
use std::alloc::Global;

/// The canonical text of the automaton that a text is.
pub fn redrawn(alloc: Global, bytes: &[u8]) -> Result<Vec<u8>, Refused>
    ensures { Gives (λ text. text.items) result (and_then (dot_of bytes.now) (λ a. Ok (dot_text a))) }
{
    let automaton = read_dot(alloc, bytes)?;
    Ok(write_dot(alloc, &automaton)?)
}
