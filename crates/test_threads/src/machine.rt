//! The machine on one thread: each act on one instance, and the scripts of two CPUs in the order of their lines.
ghost use Rattle.std.specs.Prelude.{◌≡◌, ◌≢◌, ◌+◌, ◌<◌, [], ◌∷◌, sum, All, IfOk};
ghost use Rattle.rv_model.specs.declared.hit.Mode.{Mode};
ghost use Rattle.rv_model.specs.declared.hit.Mode.TheVariants.{Start};
ghost use Rattle.rv_model.specs.declared.hit.What.TheVariants.{Da};
ghost use Rattle.rv_model.specs.inner.EventTables.{event_count};
ghost use Rattle.rv_model.specs.Setups.{Setup};
ghost use Rattle.rv_core.specs.Advance.{FitsKind};
ghost use Rattle.rv_core.specs.Setup.{FitsAct, table_at};
ghost use Rattle.rv_feed.specs.Lane.{FitsLane};

use crate::feed::{one_turn, outcome_of};
use crate::setup::one_instance;
use rv_core::{Core, RowPhase};
use rv_feed::{Lane, run_in_order};
use rv_model::{Act, Answer, Delivered, Hit, Mode, Reactor, What};
use std::alloc::{AllocError, Global};
use std::test::Fail;

/// What is done to the instance, or to the switches.
#[derive(Clone, Copy, Debug, Drop)]
enum Does {
    /// Preemption is disabled, as an event that is no start.
    Disable,
    /// Preemption is enabled, as a start.
    Start,
    /// A task is woken, as an event that is no start.
    Wake,
    Stop,
    Clear,
    End,
    Look,
    /// Monitoring goes off.
    Lower,
    /// The run is halted.
    Halt,
}

/// A delivery of the event to the instance.
fn delivery(mode: Mode, event: u8) -> Act
    requires mode { mode ≢ Mode.End }
    requires event { event < 3 }
    ensures { (s : Setup) → 0 < sum s.shape → event_count (table_at s 0) ≡ 3 → FitsAct s result }
{
    Act::Deliver {
        slot: 0,
        hit: Hit {
            mode,
            what: What::Da { event },
        },
    }
}

/// The act in full.
fn act_of(does: Does) -> Act
    ensures { (s : Setup) → 0 < sum s.shape → event_count (table_at s 0) ≡ 3 → FitsAct s result }
{
    match does {
        Does::Disable => delivery(Mode::Event, 0),
        Does::Start => delivery(Mode::Start, 1),
        Does::Wake => delivery(Mode::Event, 2),
        Does::Stop => Act::Stop { slot: 0 },
        Does::Clear => Act::Clear { slot: 0 },
        Does::End => Act::End { slot: 0 },
        Does::Look => Act::Look,
        Does::Lower => Act::Lower { bits: 1 << 32 },
        Does::Halt => Act::Raise { bits: 1 << 34 },
    }
}

/// What is done, what it tells, and what the instance does then.
type Step = (Does, Answer, RowPhase);

/// The instance is in the state in which it can be preempted, and in the one in which it can't.
const CAN: RowPhase = RowPhase::Running { rows: 2 };

const CANNOT: RowPhase = RowPhase::Running { rows: 4 };

/// Row 1 is the first state, and row 2 the second one. The switches are those of the one monitor, monitoring and
/// reacting.
const STEPS: &[Step] = &[
    (Does::Wake, Answer::Passed, RowPhase::Waiting),
    (Does::Start, Answer::Started, CAN),
    (Does::Disable, Answer::Kept, CANNOT),
    (Does::Wake, Answer::Kept, CANNOT),
    (Does::Start, Answer::Kept, CAN),
    (Does::Stop, Answer::Stopped, RowPhase::Stopped),
    (Does::Start, Answer::Passed, RowPhase::Stopped),
    (Does::Clear, Answer::Cleared, RowPhase::Waiting),
    (Does::Start, Answer::Started, CAN),
    (Does::Wake, Answer::Failed(2), RowPhase::Waiting),
    (Does::Start, Answer::Started, CAN),
    (Does::End, Answer::Ended, RowPhase::Waiting),
    (
        Does::Look,
        Answer::Looked(12_884_901_889),
        RowPhase::Waiting,
    ),
    (Does::Lower, Answer::Switched, RowPhase::Waiting),
    (Does::Halt, Answer::Switched, RowPhase::Waiting),
    (
        Does::Look,
        Answer::Looked(25_769_803_777),
        RowPhase::Waiting,
    ),
    (Does::Start, Answer::Started, CAN),
];

/// Whether the step tells this, and leaves the instance so.
fn agrees(core: &mut Core, step: &Step) -> bool
    requires slot { 0 < sum core.old.setup.shape }
    requires events { event_count (table_at core.old.setup 0) ≡ 3 }
    ensures { core.new.setup ≡ core.old.setup }
{
    let (does, wanted, phase) = *step;
    let act = act_of(does);
    core.step(2, &act) == wanted && core.phase(0) == phase
}

/// A machine of one instance.
fn one_core(alloc: Global) -> Result<Core, AllocError>
    ensures shape { IfOk result (λ core. core.setup.shape ≡ 1 ∷ []) }
    ensures events { IfOk result (λ core. event_count (table_at core.setup 0) ≡ 3) }
    ensures first { IfOk result (λ core. (m : Mode) → FitsKind (table_at core.setup 0) m (Da 0)) }
{
    Core::new(alloc, one_instance(alloc)?)
}

#[test]
fn each_act_tells_its_answer_and_leaves_its_phase(rt: HostRuntime) -> Result<(), Fail> {
    let mut core = one_core(rt.alloc())?;
    for step in STEPS {
        assert!(rt; agrees(&mut core, step), "at {:?}", step.0);
    }
    Ok(())
}

/// The lane of a CPU with one turn, whose line is one above the CPU.
fn lane_of(alloc: Global, cpu: u8) -> Result<Lane, AllocError>
    requires { cpu < 64 }
    ensures cpu { IfOk result (λ lane. lane.work.cpu ≡ cpu) }
    ensures line { IfOk result (λ lane. All (λ t. t.line ≡ 1 + cpu) lane.work.turns) }
    ensures fits { (s : Setup) → s.shape ≡ 1 ∷ [] → FitsKind (table_at s 0) Start (Da 0) → IfOk result (FitsLane s) }
{
    Lane::new(alloc, one_turn(alloc, cpu)?)
}

#[test]
fn the_turn_of_the_lowest_line_is_played_first(rt: HostRuntime) -> Result<(), Fail> {
    let mut core = one_core(rt.alloc())?;
    let mut lanes = [lane_of(rt.alloc(), 1)?, lane_of(rt.alloc(), 0)?];
    run_in_order(&mut core, &[Reactor::Nop], &mut lanes);
    let outcomes = (outcome_of(&lanes[0]), outcome_of(&lanes[1]));
    let kept = Some(Delivered::Done(Answer::Kept));
    let started = Some(Delivered::Done(Answer::Started));
    assert!(rt; outcomes == (kept, started));
    Ok(())
}
