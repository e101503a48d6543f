//! Counted words that threads share, recorded runs on them and the one history that these are merged into, its exit
//! status, and histories as texts, which are printed and read back.
#![tactic(auto)]

mod board;
mod counted;
mod delivery;
mod enabled;
mod entries;
mod exit;
mod feeding;
mod lane;
mod laws;
mod merging;
mod names;
mod observed;
mod pending;
mod pieces;
mod printing;
mod reading;
mod rule;
mod running;
mod seat;
mod sharing;
mod steps;
mod words;

pub use board::{CountedBoard, CountedStart};
pub use counted::Counted;
pub use enabled::enabled_works;
pub use exit::exit_status;
pub use feeding::{CountedFeeder, run_counted};
pub use lane::CountedLane;
pub use laws::journals_are_read_again;
pub use merging::merge;
pub use printing::journal_text;
pub use reading::read_entry;
pub use running::{Recorded, record_run};
pub use seat::{CountedSeat, MAX_ENTRIES};
pub use words::Width;
