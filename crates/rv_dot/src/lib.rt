//! The DOT files of automata: tokens, statements, and the automaton.
#![tactic(auto)]

mod attribute;
mod canonical;
mod drawing;
mod fact;
mod front;
mod gather;
mod grammar;
mod label;
pub mod lines;
mod lists;
mod marks;
mod moves;
mod names;
mod numbering;
mod reading;
mod runs;
mod saying;
mod statement;
mod token;

pub use canonical::{canonical_texts_are_read, write_dot};
pub use grammar::the_grammar;
pub use reading::{automata_are_drawn, read_dot};
