//! The plain types that all crates of the tool share, and the definitions that they are judged by.
#![tactic(auto)]

mod automaton;
mod bits;
mod entry;
mod formula;
mod ghost_list;
mod hit;
mod kind;
mod laws;
mod name;
mod reactor;
mod record;
mod switches;
mod work;

pub use automaton::{Automaton, Edge};
pub use bits::has_bit;
pub use entry::{Act, Answer, Closed, Entry};
pub use formula::{Formula, Rule, Spec};
pub use ghost_list::{GhostList, Keeps};
pub use hit::{Hit, Letter, Mode, What};
pub use kind::SpecKind;
pub use laws::{
    letters_may_be_cut, one_history, records_ascend, satisfaction_is_tested, slots_apart,
    tables_are_judged, tables_mean,
};
pub use name::{Name, Names};
pub use reactor::Reactor;
pub use record::{Delivered, Record, Task};
pub use switches::{HALTED, MONITORING, REACTING, fails, is_enabled_by};
pub use work::{Change, CpuWork, Delivery, Scope, Turn};
