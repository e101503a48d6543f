//! The numbers of a run, as they are told (docs/COVERAGE.md, "What the numbers are").

use rv_model::Name;

/// A word of the trace, and the number of lines that have it.
#[derive(Drop)]
pub struct Counted {
    pub word: Name,
    pub lines: u64,
}

/// A name of the trace that comes near to the event of a rule.
#[derive(Drop)]
pub struct Near {
    pub name: Name,
    pub lines: u64,
    /// How many bytes have to be put in, taken out or replaced to make the one name of the other.
    pub distance: u64,
}

/// What a field has on the lines of a rule's event.
#[derive(Drop)]
pub struct FieldCounts {
    pub field: Name,
    /// The values that were kept, by first appearance.
    pub values: Vec<Counted>,
    /// Lines with a value that was not kept.
    pub other: u64,
    /// Lines without the field.
    pub missing: u64,
}

/// What the lines of the trace are to a rule.
#[derive(Drop)]
pub struct RuleCounts {
    /// The lines of the rule's event.
    pub lines: u64,
    /// The lines on which the rule fires.
    pub fires: u64,
    /// The names that come near to its event, the nearest first.
    pub near: Vec<Near>,
    /// For each test of the rule, on how many lines of the event it holds.
    pub holds: Vec<u64>,
    /// The fields that the tests name, each once.
    pub fields: Vec<FieldCounts>,
}

/// What the history of a run is to a monitor.
#[derive(Drop)]
pub struct MonitorCounts {
    /// What the report tells.
    pub instances: u64,
    pub deliveries: u64,
    pub failures: u64,
    pub stopped: u64,
    /// Instances that were started, that failed, and that run at the end.
    pub instances_started: u64,
    pub instances_failed: u64,
    pub instances_running: u64,
    /// Deliveries by their answers, and ends.
    pub passed: u64,
    pub started: u64,
    pub kept: u64,
    pub failed: u64,
    pub ended: u64,
    /// How often each row was reached, from row 1 on. State k of an automaton has row k + 1.
    pub rows: Vec<u64>,
    /// How often each edge of an automaton was taken.
    pub edges: Vec<u64>,
    /// The letters that were judged, and in how many each atom of a rule is true.
    pub letters: u64,
    pub atoms: Vec<u64>,
}

/// The kernel's comment on its buffer, by which more entries were written than are left.
#[derive(Clone, Copy, Drop)]
pub struct Entries {
    pub line: u32,
    pub kept: u64,
    pub written: u64,
}

/// Lines that end in a carriage return: the first one, and how many there are.
#[derive(Clone, Copy, Drop)]
pub struct Returns {
    pub line: u32,
    pub lines: u64,
}

/// A line and its timestamp.
#[derive(Drop)]
pub struct Stamped {
    pub line: u32,
    pub stamp: Name,
}

/// Lines whose timestamp is less than one above them.
#[derive(Drop)]
pub struct Late {
    /// The first such line.
    pub late: Stamped,
    /// The greatest timestamp above it.
    pub latest: Stamped,
    /// How many there are.
    pub lines: u64,
}

/// What the trace tells of itself.
#[derive(Drop)]
pub struct TraceCounts {
    pub lines: u64,
    pub events: u64,
    /// Lines whose event is that of some rule, and lines on which some rule fires.
    pub named: u64,
    pub fired: u64,
    /// The names of its events that were kept, by first appearance.
    pub names: Vec<Counted>,
    pub overwritten: Option<Entries>,
    pub returns: Option<Returns>,
    pub late: Option<Late>,
}

/// Where a run was halted: the line, and the index of the monitor that failed.
#[derive(Clone, Copy, Drop)]
pub struct Halt {
    pub line: u32,
    pub monitor: u8,
}

/// All numbers of a run.
#[derive(Drop)]
pub struct Counts {
    /// For each monitor of the bindings.
    pub monitors: Vec<MonitorCounts>,
    /// For each rule of the bindings.
    pub rules: Vec<RuleCounts>,
    pub trace: TraceCounts,
    pub halt: Option<Halt>,
    /// The firings of rules of enabled monitors that were not delivered.
    pub undelivered: u64,
}
