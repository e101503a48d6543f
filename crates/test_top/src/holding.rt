//! A gate that holds those who run at once, in the order that a list of waits asks for.
use rv_io::Gate;
use std::sync::atomic::{AtomicU64, Ordering};

/// The control actor's number at its gate. The CPUs that are held have 0 and 1.
pub const ACTOR: u32 = 64;

/// The reader's number at its gate.
pub const READER: u32 = 65;

/// How often one looks at a count before it gives up.
const LOOKS: u32 = 1_000_000_000;

/// Where one is held.
#[derive(Clone, Copy, Debug, Drop, PartialEq, Eq)]
pub enum HeldAt {
    /// Before a turn, counted from 0.
    Turn(u64),
    /// Before the try of a delivery that has lost so many.
    Lost(u32),
}

/// How far one has come: so many of them, the one that it is held before included.
#[derive(Clone, Copy, Debug, Drop)]
pub enum Count {
    Turns(u64),
    /// Of all its deliveries.
    Tries(u64),
}

/// One is held at a place until another has come so far.
#[derive(Clone, Copy, Debug, Drop)]
pub struct Wait(pub u32, pub HeldAt, pub u32, pub Count);

/// How far one has come.
#[derive(Drop)]
struct Progress {
    turns: AtomicU64,
    tries: AtomicU64,
}

impl Progress {
    fn new() -> Progress {
        Progress {
            turns: AtomicU64::new(0),
            tries: AtomicU64::new(0),
        }
    }

    fn has_come(&self, until: Count) -> bool {
        match until {
            Count::Turns(least) => self.turns.load(Ordering::SeqCst) >= least,
            Count::Tries(least) => self.tries.load(Ordering::SeqCst) >= least,
        }
    }
}

/// How far each of them has come.
#[derive(Drop)]
pub struct Marks {
    cpu_0: Progress,
    cpu_1: Progress,
    actor: Progress,
    reader: Progress,
    late: AtomicU64,
}

impl Marks {
    pub fn new() -> Marks {
        Marks {
            cpu_0: Progress::new(),
            cpu_1: Progress::new(),
            actor: Progress::new(),
            reader: Progress::new(),
            late: AtomicU64::new(0),
        }
    }

    fn of(&self, who: u32) -> &Progress {
        match who {
            0 => &self.cpu_0,
            1 => &self.cpu_1,
            ACTOR => &self.actor,
            _ => &self.reader,
        }
    }

    /// How often one gave up.
    pub fn late(&self) -> u64 {
        self.late.load(Ordering::SeqCst)
    }
}

/// The gate of one of them.
#[derive(Drop)]
pub struct Held<'a> {
    pub waits: &'a [Wait],
    pub marks: &'a Marks,
}

impl Held<'_> {
    /// Waits until another has come so far, or gives up.
    fn wait(&self, whom: u32, until: Count) {
        for _ in 0..LOOKS {
            if self.marks.of(whom).has_come(until) {
                return;
            }
        }
        self.marks.late.fetch_add(1, Ordering::SeqCst);
    }

    /// Makes the waits of this place.
    fn hold(&self, who: u32, at: HeldAt) {
        for &Wait(one, place, whom, until) in self.waits {
            if one == who && place == at {
                self.wait(whom, until);
            }
        }
    }
}

impl Gate for Held<'_> {
    fn for_cpu(&self, _cpu: u32) -> Self {
        Held {
            waits: self.waits,
            marks: self.marks,
        }
    }

    fn pass(&mut self, cpu: u32, turn: u64) {
        let come = turn.wrapping_add(1);
        self.marks.of(cpu).turns.store(come, Ordering::SeqCst);
        self.hold(cpu, HeldAt::Turn(turn));
    }

    fn between(&mut self, cpu: u32, lost: u32) {
        self.marks.of(cpu).tries.fetch_add(1, Ordering::SeqCst);
        self.hold(cpu, HeldAt::Lost(lost));
    }
}
