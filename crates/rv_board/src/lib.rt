//! The words that threads share, and the seats from which threads change them. All changes are entries of one
//! history, of which each seat has seen a beginning.
#![tactic(auto)]

mod board;
mod delivery;
mod limits;
mod rule;
mod seat;
mod sharing;
mod spacing;
mod view;

pub use board::{Board, BoardStart};
pub use limits::limits_are_numerals;
pub use rule::{Cut, Cutting, Joining};
pub use rv_model::Delivered;
pub use seat::{SEATS, Seat};
pub use sharing::cut;
pub use spacing::{LINE_WORDS, SPREAD_SLOTS, Spacing};
pub use view::{Part, View};
