//! What an instance is doing, read from its word.
ghost use Rattle.std.specs.Prelude.{◌≡◌};
ghost use Rattle.rv_word.specs.Words.{set_in};
ghost use Rattle.rv_core.specs.inner.SetPhases.{phase_by};

use rv_word::set_of;

/// What an instance is doing.
#[derive(Clone, Copy, Debug, Drop, PartialEq, Eq)]
pub enum RowPhase {
    /// It waits for a start.
    Waiting,
    /// The letters since its start reach these rows, bit k for row k.
    Running { rows: u32 },
    /// It is stopped, until it is cleared.
    Stopped,
}

/// What the instance of a word is doing.
#[inline(always)]
pub(crate) fn phase_in(word: u64) -> RowPhase
    ensures { result ≡ phase_by (set_in word) }
{
    match set_of(word) {
        0 => RowPhase::Stopped,
        1 => RowPhase::Waiting,
        rows => RowPhase::Running { rows },
    }
}
