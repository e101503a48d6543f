//! A place at which a test holds a CPU. Nothing is promised of it but that its calls return.

/// The CPUs of a run have the numbers 0 to 63, the control actor 64 and a watcher 65.
pub trait Gate: Drop {
    /// The gate of a CPU's own.
    fn for_cpu(&self, cpu: u32) -> Self;

    /// The CPU is before a turn of its script.
    fn pass(&mut self, cpu: u32, turn: u64);

    /// The CPU is between the load of a word and its try, of one delivery that lost so many tries.
    fn between(&mut self, cpu: u32, lost: u32);
}

/// The gate that holds nobody.
#[derive(Clone, Copy, Debug, PartialEq, Eq)]
pub struct OpenGate;

impl Gate for OpenGate {
    fn for_cpu(&self, _cpu: u32) -> Self {
        OpenGate
    }

    fn pass(&mut self, _cpu: u32, _turn: u64) {}

    fn between(&mut self, _cpu: u32, _lost: u32) {}
}
