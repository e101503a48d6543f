//! What an event of the trace brings to a monitor's instance.
ghost use Rattle.std.specs.Prelude.{◌≡◌};
ghost use Rattle.rv_model.specs.Scripts.{is_end};

/// What a specification judges one at a time.
#[derive(Clone, Copy, Debug, Drop, PartialEq, Eq)]
pub enum Letter {
    /// An automaton's event, by its place in the list of events.
    Event(u8),
    /// The set of a rule's atoms that hold: bit k for atom k.
    Atoms(u32),
}

/// What an event may do to an instance that waits.
#[derive(Clone, Copy, Debug, Drop, PartialEq, Eq)]
pub enum Mode {
    /// It is passed.
    Event,
    /// It begins a run, and is not itself run. Automata alone have it.
    Start,
    /// It begins a run, and is the run's first letter.
    StartRun,
    /// It ends the instance, which waits afterwards as it did at the start. Monitors of tasks alone have it.
    End,
}

/// What is run: an automaton's event, what becomes of a rule's atoms, or nothing.
#[derive(Clone, Copy, Debug, Drop, PartialEq, Eq)]
pub enum What {
    /// The event, by its place in the list of events.
    Da { event: u8 },
    /// Sets of atoms: the levels that go on, those that go off, and those that are true for this event alone.
    Ltl { on: u32, off: u32, pulse: u32 },
    /// An end has it, and nothing else.
    Nothing,
}

/// One event as it reaches an instance.
#[derive(Clone, Copy, Debug, Drop, PartialEq, Eq)]
pub struct Hit {
    pub mode: Mode,
    pub what: What,
}

impl Mode {
    /// Whether it ends its instance.
    pub fn is_end(self) -> bool
        ensures { result ≡ is_end self }
    {
        matches!(self, Mode::End)
    }
}
