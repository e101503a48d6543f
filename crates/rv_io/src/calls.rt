//! The numbers of a store's or a sink's calls, and those that shall fail.
ghost use Rattle.std.specs.Prelude.{◌≡◌, ◌≤◌, ◌∷◌, [], ◌++◌, OnOk, OnErr};
ghost use Rattle.rv_io.specs.Calls.{Calls as CallsValue, is_listed, passed, failed};
ghost use Rattle.rv_io.specs.MemStores.{counted};

use std::alloc::{AllocError, Global};
use std::marker::Model;

/// Calls are counted from 1. Both counts stand still at the last value of a `u64`.
#[derive(Drop)]
pub(crate) struct Calls {
    listed: Vec<u64>,
    made: u64,
    faults: u64,
}

impl Model for Calls {
    ghost use Rattle.rv_io.specs.Calls.{Calls};

    ghost Value = { Calls };

    ghost view = { λ c. record { listed = c.listed.items; made = c.made; faults = c.faults } };
}

impl Calls {
    pub(crate) fn new(alloc: Global) -> Calls
        ensures { result ≡ record { listed = []; made = 0; faults = 0 } }
    {
        Calls {
            listed: Vec::new(alloc),
            made: 0,
            faults: 0,
        }
    }

    /// Lists a call, which fails when it is made.
    pub(crate) fn list(&mut self, call: u64) -> Result<(), AllocError>
        ensures ok { OnOk result (self.new ≡ record self.old { listed = self.old.listed ++ call ∷ [] }) }
        ensures err { OnErr result (self.new ≡ self.old) }
    {
        self.listed.push(call)?;
        Ok(())
    }

    /// Whether the next call is listed.
    pub(crate) fn is_next_listed(&self) -> bool
        ensures { result ≡ is_listed self.now }
    {
        self.listed.contains(&self.made.saturating_add(1))
    }

    /// Counts a call.
    pub(crate) fn pass(&mut self)
        ensures { self.new ≡ passed self.old }
    {
        self.made = self.made.saturating_add(1);
    }

    /// Counts a call that failed.
    pub(crate) fn fail(&mut self)
        ensures failed { self.new ≡ failed self.old }
        ensures later { self.old.faults ≤ self.new.faults }
    {
        self.made = self.made.saturating_add(1);
        self.faults = self.faults.saturating_add(1);
    }
    /// Counts a call, and tells whether it is listed and so fails.
    pub(crate) fn count(&mut self) -> bool
        ensures value { result ≡ is_listed self.old }
        ensures counted { self.new ≡ counted self.old }
        ensures later { self.old.faults ≤ self.new.faults }
    {
        let fails = self.is_next_listed();
        if fails {
            self.fail();
        } else {
            self.pass();
        }
        fails
    }
}
