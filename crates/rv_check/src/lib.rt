//! The judge of a journal: whether its lines so far are those of a history that has begun, and whether they are those of
//! a legal one. The input has no changes, so no entry is the control actor's.
#![tactic(auto)]

mod checker;
mod entries;
mod given;
mod next;
mod reading;
mod run;
mod script;
mod work;

pub use checker::Checker;
pub use reading::{JournalReader, Verdict, one_verdict};
