//! The outside of a run: a store that gives files, a sink that takes bytes, and a gate at which
//! tests hold a CPU. Each is a trait; contracts say what it tells and count its faults.
#![tactic(auto)]

mod calls;
mod disk;
mod gate;
mod limits;
mod mem_sink;
mod mem_store;
mod piece;
mod sink;
mod stdout;
mod store;

pub use disk::Disk;
pub use gate::{Gate, OpenGate};
pub use limits::limits_are_numerals;
pub use mem_sink::MemSink;
pub use mem_store::MemStore;
pub use piece::piece_of;
pub use sink::{PutFault, Sink, put_all};
pub use stdout::Stdout;
pub use store::{READ_LIMIT, ReadError, Store};
