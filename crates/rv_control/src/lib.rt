//! The control files of a run (Linux, Documentation/trace/rv, "User interface"), and scripts that read and write them.
#![tactic(auto)]

mod control;
mod laws;
mod limits;
mod opening;
mod orders;
mod paths;
mod script;
mod sets;
mod texts;
mod watched;
mod writes;

pub use control::Control;
pub use laws::{
    front_decides, second_writes_change_nothing, the_cleared_go_on, the_named_alone_are_on,
    writes_are_read_back,
};
pub use limits::limits_are_numerals;
pub use opening::opening_switches;
pub use paths::is_joined;
pub use script::{Command, Numbered, SCRIPT_LIMIT, read_script};
