//! A letter that was judged, and what is asked of it.
ghost use Rattle.std.specs.Prelude.{◌≡◌, ◌<◌, [], sum};
ghost use Rattle.rv_model.specs.Letters.{atoms_in};
ghost use Rattle.rv_model.specs.Phases.{rows_of};
ghost use Rattle.rv_model.specs.Setups.{judge_of};
ghost use Rattle.rv_core.specs.Setup.{judges_of};
ghost use Rattle.rv_reach.specs.Reached.{is_kept, is_run, is_started};
ghost use Rattle.rv_reach.specs.inner.RowSets.{is_move, rows_before, rows_behind, runs_behind};
ghost use Rattle.rv_reach.specs.inner.Counters.{IsJudged};

use rv_core::{Core, RowPhase};
use rv_model::{Answer, Edge, Letter, Mode, Record, has_bit};

/// A letter that was judged on an instance.
#[derive(Clone, Copy, Drop)]
pub(crate) struct Judged {
    pub(crate) instance: u32,
    pub(crate) mode: Mode,
    pub(crate) letter: Letter,
    pub(crate) answer: Answer,
    /// The rows from which it was judged.
    pub(crate) from: u32,
    /// What the instance is doing behind it.
    pub(crate) after: RowPhase,
}

/// The letter of a record with this answer, on the machine that has made its delivery.
#[inline(always)]
pub(crate) fn judged_of(
    core: &Core,
    slot: u32,
    before: RowPhase,
    made: &Record,
    answer: Answer,
) -> Judged
    requires { slot < sum core.now.setup.shape }
    ensures { IsJudged core.now slot before made.now answer result }
{
    Judged {
        instance: made.instance,
        mode: made.hit.mode,
        letter: core.letter(slot, &made.hit.what),
        answer,
        from: rows_before(core, slot, before),
        after: core.phase(slot),
    }
}

/// The rows in which an instance runs.
#[inline(always)]
pub(crate) fn rows_behind(phase: RowPhase) -> u32
    ensures { result ≡ rows_behind phase }
{
    match phase {
        RowPhase::Running { rows } => rows,
        RowPhase::Waiting | RowPhase::Stopped => 0,
    }
}

/// Whether an instance runs.
#[inline(always)]
pub(crate) fn runs_behind(phase: RowPhase) -> bool
    ensures { result ≡ runs_behind phase }
{
    matches!(phase, RowPhase::Running { .. })
}

/// The rows from which a letter is judged: of an instance that waits, those of no letters.
#[inline(always)]
pub(crate) fn rows_before(core: &Core, slot: u32, before: RowPhase) -> u32
    requires { slot < sum core.now.setup.shape }
    ensures { result ≡ rows_before (rows_of (judge_of core.now.setup (judges_of core.now.setup) slot) []) before }
{
    match before {
        RowPhase::Waiting => core.start(slot),
        RowPhase::Running { rows } => rows,
        RowPhase::Stopped => 0,
    }
}

/// The atoms that hold in a letter. An event has none.
#[inline(always)]
pub(crate) fn atoms_in(letter: Letter) -> u32
    ensures { result ≡ atoms_in letter }
{
    match letter {
        Letter::Event(_) => 0,
        Letter::Atoms(set) => set,
    }
}

/// Whether a run begins with it.
#[inline(always)]
pub(crate) fn is_started(answer: Answer) -> bool
    ensures { result ≡ is_started answer }
{
    matches!(answer, Answer::Started)
}

/// Whether the run goes on.
#[inline(always)]
pub(crate) fn is_kept(answer: Answer) -> bool
    ensures { result ≡ is_kept answer }
{
    matches!(answer, Answer::Kept)
}

/// Whether the letter holds, and is one of the run.
#[inline(always)]
pub(crate) fn is_run(mode: Mode, answer: Answer) -> bool
    ensures { result ≡ is_run mode answer }
{
    is_kept(answer) || is_started(answer) && matches!(mode, Mode::StartRun)
}

/// Whether the edge goes by the event from one set of rows to another. State k of an automaton has the row k + 1.
#[inline(always)]
pub(crate) fn is_move(edge: &Edge, event: u8, from: u32, to: u32) -> bool
    ensures { result ≡ is_move edge.now event from to }
{
    event == edge.event
        && has_bit(u64::from(from), edge.from as usize + 1)
        && has_bit(u64::from(to), edge.to as usize + 1)
}
