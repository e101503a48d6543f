//! Labels as masks: a label is true on a letter exactly where the letter meets one of its cubes, and a test of a cube is two
//! ands. A label with too many cubes is kept as the formula that it is.
#![tactic(auto)]

mod cube;
mod expanding;
mod joining;
mod laws;
mod limits;
mod masks;
mod sizes;
mod truth;

pub use cube::Cube;
pub use laws::{cubes_say_the_label, lists_are_within_their_sizes};
pub use limits::limits_are_numerals;
pub use masks::Masks;
pub use sizes::MOST_CUBES;
