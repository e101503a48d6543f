//! A sink in memory, with calls that fail as they are listed.
ghost use Rattle.std.specs.Prelude.{◌≡◌, ◌≤◌, ◌<◌, ◌-◌, ◌↔◌, ◌⊎◌, ◌∷◌, [], ◌++◌, ℕ, List, Bool, true, Some, length, take, min, IfOk, OnOk, OnErr, IsErr, IsTrue};
ghost use Rattle.rv_io.specs.Calls.{is_listed, failed};
ghost use Rattle.rv_io.specs.MemSinks.{took};
ghost use Rattle.rv_io.specs.Taken.{Puts};

use crate::calls::Calls;
use crate::{PutFault, Sink};
use std::alloc::{AllocError, Global};
use std::marker::Model;

/// It tells what it took, and has a room that only shrinks. Its memory is taken when it is made.
#[derive(Drop)]
pub struct MemSink {
    taken: Vec<u8>,
    most: usize,
    room: usize,
    calls: Calls,
}

impl Model for MemSink {
    ghost use Rattle.std.specs.Prelude.{◌≤◌, ◌+◌, vec_len, vec_capacity};
    ghost use Rattle.rv_io.specs.MemSinks.{SinkValue};

    ghost Value = { SinkValue };

    ghost view = { λ s. record { taken = s.taken.items; most = s.most; room = s.room; calls = s.calls } };

    ghost invariant = { λ s. (1 ≤ s.most) × (vec_len s.taken + s.room ≤ vec_capacity s.taken) };
}

impl MemSink {
    /// A sink that takes at most so many bytes at once, and has room for so many in all.
    pub fn new(alloc: Global, most: usize, room: usize) -> Result<MemSink, AllocError>
        requires { 1 ≤ most }
        ensures { IfOk result (λ sink. sink ≡ record { taken = []; most = most; room = room; calls = record { listed = []; made = 0; faults = 0 } }) }
    {
        Ok(MemSink {
            taken: Vec::with_capacity(alloc, room)?,
            most,
            room,
            calls: Calls::new(alloc),
        })
    }

    /// Lists a call, counted from 1: a put that has this number fails.
    pub fn fail_at(&mut self, call: u64) -> Result<(), AllocError>
        ensures ok { OnOk result (self.new ≡ record self.old { calls = record self.old.calls { listed = self.old.calls.listed ++ call ∷ [] } }) }
        ensures err { OnErr result (self.new ≡ self.old) }
    {
        self.calls.list(call)
    }

    /// The bytes taken.
    pub fn taken(&self) -> &[u8]
        ensures { result.now ≡ self.now.taken }
    {
        self.taken.as_slice()
    }
}

impl Sink for MemSink {
    ghost taken = { λ s. Some s.taken };

    ghost faults = { λ s. s.calls.faults };

    fn put(&mut self, bytes: &[u8]) -> Result<usize, PutFault>
        ensures put { Puts (Some self.old.taken) (Some self.new.taken) self.old.calls.faults self.new.calls.faults bytes.now result }
        ensures fault { IsErr result ↔ (IsTrue (is_listed self.old.calls) ⊎ ((0 < length bytes.now) × (self.old.room ≡ 0))) }
        ensures ok { IfOk result (λ n. (n ≡ min (length bytes.now) (min self.old.most self.old.room)) × (self.new ≡ took self.old (take n bytes.now))) }
        ensures err { OnErr result (self.new ≡ record self.old { calls = failed self.old.calls }) }
    {
        if self.calls.is_next_listed() || (!bytes.is_empty() && self.room == 0) {
            self.calls.fail();
            return Err(PutFault);
        }
        let count = bytes.len().min(self.most).min(self.room);
        if self.taken.extend_from_slice(&bytes[..count]).is_err() {
            unreachable!();
        }
        self.room -= count;
        self.calls.pass();
        Ok(count)
    }
}
