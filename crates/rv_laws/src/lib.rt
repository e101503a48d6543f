//! Laws of histories: on slots that only one CPU's deliveries are for, of deliveries that are switched off, of control
//! scripts that clear or change nothing, of the status, of the state that a failure names, and of parts of an input.
#![tactic(auto)]

mod failed_states;
mod laws;

pub use failed_states::failures_name_their_state;
pub use laws::{
    cpu_slots_have_one_writer, cpu_works_are_parts, enabled_deliveries_are_enough,
    idle_scripts_are_none, parts_have_the_whole, parts_report_the_whole,
    single_writer_records_agree, single_writer_records_are_one,
    single_writer_slots_are_not_stopped, status_is_seen, uncleared_slots_are_not_stopped,
};
