//! What a run begins with.
ghost use Rattle.std.specs.Prelude.{◌≡◌, ◌<◌, ◌^◌, sum};
ghost use Rattle.rv_model.specs.Setups.{monitor_of, start_of};
ghost use Rattle.rv_word.specs.Words.{packed};
ghost use Rattle.rv_core.specs.Setup.{IsSetup, table_at};

use rv_slots::Shape;
use rv_table::Table;
use rv_word::pack;
use std::marker::Model;

/// A table and a starting value for each monitor of the shape, and the opening switches: bits 0 to 31 enable the
/// monitors, bit 32 is monitoring, 33 reacting and 34 halted, and all other bits are 0.
#[derive(Drop)]
pub struct Setup {
    pub shape: Shape,
    pub tables: Vec<Table>,
    pub starts: Vec<u32>,
    pub switches: u64,
}

impl Model for Setup {
    ghost use Rattle.rv_model.specs.Setups.{Setup as Opening, coded_setup};
    ghost use Rattle.rv_core.specs.Setup.{FitsShape};

    ghost Value = { Opening };

    ghost coded = { coded_setup };

    ghost view = { λ s. record { shape = s.shape; tables = s.tables.items; starts = s.starts.items; switches = s.switches } };

    ghost invariant = { λ s. FitsShape (record { shape = s.shape; tables = s.tables.items; starts = s.starts.items; switches = s.switches }) };
}

impl Setup {
    /// What is known of every setup.
    pub fn assert_invariant(&self)
        ensures { IsSetup self.now }
    {
        for table in &self.tables {
            table.assert_invariant();
        }
    }

    /// The opening word of a slot: it waits, with its starting levels.
    pub fn opening(&self, slot: u32) -> u64
        requires { slot < sum self.now.shape }
        ensures word { result ≡ packed 1 (start_of self.now slot) }
        ensures fits { start_of self.now slot < 2 ^ 32 }
    {
        let place = self.shape.place(slot);
        pack(1, self.starts[place.monitor as usize])
    }

    /// The table of a slot of this monitor.
    #[inline(always)]
    pub(crate) fn table_of(&self, monitor: u8, slot: u32) -> &Table
        requires slot { slot < sum self.now.shape }
        requires monitor { monitor ≡ monitor_of self.now.shape slot }
        ensures { result.now ≡ table_at self.now slot }
    {
        let _slot = slot;
        &self.tables[monitor as usize]
    }

    /// The table of a slot.
    pub fn table(&self, slot: u32) -> &Table
        requires { slot < sum self.now.shape }
        ensures { result.now ≡ table_at self.now slot }
    {
        let place = self.shape.place(slot);
        &self.tables[place.monitor as usize]
    }
}
