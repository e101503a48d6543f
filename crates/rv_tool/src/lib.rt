//! The top call: from the command's words and the files that they name to a status, a text and a history.
#![tactic(auto)]

mod check;
mod control;
mod counts_fit;
mod feed;
mod feed_beside;
mod header;
mod input;
mod journal;
mod laws;
mod listed;
mod load;
mod output;
mod replay;
mod table;
mod top;
mod watch;
mod widths;
mod words;

pub use laws::{
    check_says_yes, known_files_may_come, load_is_accepted, load_is_bound, refusals_have_steps,
};
pub use listed::{PreparedList, prepare_list};
pub use replay::FinishedRun;
pub use top::{Finished, put_done, put_usage, rv};
