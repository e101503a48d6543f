//! The one place of this crate that calls the top call. Nothing is promised of it, so that its clauses stay out of what the tests prove.
use crate::holding::{Held, Marks, Wait};
use rv_io::{Gate, MemSink, MemStore};
use rv_tool::rv;
use std::alloc::{AllocError, Global};
use std::thread::Threads;

/// What a run came to.
#[derive(Drop)]
pub struct Came {
    pub status: u8,
    /// How often one who was held gave up.
    pub late: u64,
    taken: Vec<u8>,
}

impl Came {
    /// What was put.
    pub fn text(&self) -> &str {
        std::str::from_utf8(self.taken.as_slice()).unwrap_or("no text\n")
    }

    /// Whether the run ended so, and nobody gave up.
    pub fn is(&self, status: u8, text: &str) -> bool {
        self.status == status && self.late == 0 && self.text() == text
    }
}

/// Runs the command, whose words stand one space apart, and gives its status.
pub fn run<R: Threads + Sync, G: Gate + Send>(
    rt: &R,
    alloc: Global,
    command: &str,
    store: &mut MemStore,
    out: &mut MemSink,
    gate: &G,
) -> Result<u8, AllocError> {
    let mut words = Vec::new(alloc);
    for word in command.split(' ') {
        words.push(String::from_str(alloc, word)?)?;
    }
    Ok(rv(rt, alloc, words.as_slice(), store, out, gate).status)
}

/// Runs the command while the waits hold those who run at once.
pub fn run_held<R: Threads + Sync>(
    rt: &R,
    alloc: Global,
    command: &str,
    store: &mut MemStore,
    waits: &[Wait],
) -> Result<Came, AllocError> {
    let mut out = MemSink::new(alloc, 64, 65_536)?;
    let marks = Marks::new();
    let gate = Held {
        waits,
        marks: &marks,
    };
    let status = run(rt, alloc, command, store, &mut out, &gate)?;
    Ok(Came {
        status,
        late: marks.late(),
        taken: Vec::from_slice(alloc, out.taken())?,
    })
}
