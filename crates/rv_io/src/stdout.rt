//! Standard output: the trusted edge, so as little as can be.
ghost use Rattle.std.specs.Prelude.{◌≡◌, None, OnOk, OnErr};
ghost use Rattle.rv_io.specs.Calls.{risen};
ghost use Rattle.rv_io.specs.Taken.{Puts};

use crate::{PutFault, Sink};
use std::io::Write;
use std::marker::Model;

/// It tells nothing of what it took, and is seen as its count of faults.
#[derive(Drop)]
pub struct Stdout<'a, R> {
    rt: &'a R,
    faults: u64,
}

impl<'a, R> Model for Stdout<'a, R> {
    ghost use Rattle.std.specs.Prelude.{ℕ};

    ghost Value = { ℕ };

    ghost view = { λ s. s.faults };
}

impl<'a, R: Print> Stdout<'a, R> {
    pub fn new(rt: &'a R) -> Stdout<'a, R>
        ensures { result ≡ 0 }
    {
        Stdout { rt, faults: 0 }
    }
}

impl<R: Print> Sink for Stdout<'_, R> {
    ghost taken = { λ _. None };

    ghost faults = { λ s. s };

    fn put(&mut self, bytes: &[u8]) -> Result<usize, PutFault>
        ensures put { Puts None None self.old self.new bytes.now result }
        ensures ok { OnOk result (self.new ≡ self.old) }
        ensures err { OnErr result (self.new ≡ risen self.old) }
    {
        match std::io::writer(self.rt).write(bytes) {
            Ok(count) if count > 0 || bytes.is_empty() => Ok(count),
            _ => {
                self.faults = self.faults.saturating_add(1);
                Err(PutFault)
            }
        }
    }
}
