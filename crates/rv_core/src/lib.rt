//! The machine over entries, on one thread: any act, after any acts.
#![tactic(auto)]

mod act;
mod laws;
mod machine;
mod phase;
mod setup;
mod turn;
mod word;

pub use act::{act_on, word_index};
pub use laws::{tables_are_judges, words_follow_acts};
pub use machine::{Core, opening_words};
pub use phase::RowPhase;
pub use setup::Setup;
pub use word::{Step, advance};
