//! Two CPUs that wait for each other at their gates, on a board of one instance.
ghost use Rattle.std.specs.Prelude.{◌≡◌, ◌+◌, [], ◌∷◌, IfOk};
ghost use Rattle.rv_model.specs.declared.hit.Mode.{Mode};
ghost use Rattle.rv_model.specs.declared.hit.Mode.TheVariants.{Start};
ghost use Rattle.rv_model.specs.declared.hit.What.TheVariants.{Da};
ghost use Rattle.rv_core.specs.Advance.{FitsKind};
ghost use Rattle.rv_core.specs.Setup.{table_at};
ghost use Rattle.rv_feed.specs.Feeders.{FitsFeeder};

use crate::setup::one_instance;
use rv_board::{Board, BoardStart, Seat};
use rv_feed::{Feeder, Lane, run_feeders};
use rv_io::Gate;
use rv_model::{Answer, CpuWork, Delivered, Delivery, Hit, Mode, Reactor, Turn, What};
use std::alloc::{AllocError, Global};
use std::sync::atomic::{AtomicU64, Ordering};
use std::test::Fail;

/// A board of one instance.
fn one_board(alloc: Global) -> Result<BoardStart, AllocError>
    ensures seat { IfOk result (λ start. (start.seat.board ≡ start.board) × (start.seat.part.number ≡ 0) × (start.seat.part.end ≡ 67)) }
    ensures shape { IfOk result (λ start. start.board.setup.shape ≡ 1 ∷ []) }
    ensures event { IfOk result (λ start. (m : Mode) → FitsKind (table_at start.board.setup 0) m (Da 0)) }
{
    Board::new(alloc, one_instance(alloc)?)
}

/// One turn, with one delivery, which is a start.
pub(crate) fn one_turn(alloc: Global, cpu: u8) -> Result<CpuWork, AllocError>
    ensures cpu { IfOk result (λ work. work.cpu ≡ cpu) }
    ensures turns { IfOk result (λ work. work.turns ≡ record { line = 1 + cpu; from = 0; to = 1 } ∷ []) }
    ensures deliveries { IfOk result (λ work. work.deliveries ≡ record { order = cpu; monitor = 0; instance = 0; hit = record { mode = Start; what = Da 0 } } ∷ []) }
{
    let mut turns = Vec::new(alloc);
    turns.push(Turn {
        line: 1 + cpu as u32,
        from: 0,
        to: 1,
    })?;
    let mut deliveries = Vec::new(alloc);
    deliveries.push(Delivery {
        order: cpu as u32,
        monitor: 0,
        instance: 0,
        hit: Hit {
            mode: Mode::Start,
            what: What::Da { event: 0 },
        },
    })?;
    Ok(CpuWork {
        cpu,
        turns,
        deliveries,
    })
}

/// A gate of one of two CPUs. Each says that it came, and passes once the other one has come.
#[derive(Drop)]
struct Meeting<'a> {
    own: &'a AtomicU64,
    other: &'a AtomicU64,
    /// How often somebody met the other.
    met: &'a AtomicU64,
}

impl Gate for Meeting<'_> {
    fn for_cpu(&self, cpu: u32) -> Self {
        let (own, other) = if cpu == 0 {
            (self.own, self.other)
        } else {
            (self.other, self.own)
        };
        Meeting {
            own,
            other,
            met: self.met,
        }
    }

    fn pass(&mut self, _cpu: u32, _turn: u64) {
        self.own.store(1, Ordering::SeqCst);
        for _ in 0..1_000_000_000 {
            if self.other.load(Ordering::SeqCst) == 1 {
                self.met.fetch_add(1, Ordering::SeqCst);
                return;
            }
        }
    }

    fn between(&mut self, _cpu: u32, _lost: u32) {}
}

/// The feeder of a CPU with one turn.
fn feeder_of<'a>(
    alloc: Global,
    board: &Board,
    seat: Seat,
    cpu: u8,
    gate: Meeting<'a>,
) -> Result<Feeder<Meeting<'a>>, AllocError>
    requires board { seat.board ≡ board.now }
    requires seat { seat.part.number ≡ 2 + cpu }
    requires shape { board.now.setup.shape ≡ 1 ∷ [] }
    requires event { (m : Mode) → FitsKind (table_at board.now.setup 0) m (Da 0) }
    ensures { IfOk result (λ feeder. FitsFeeder board.now feeder) }
{
    let lane = Lane::new(alloc, one_turn(alloc, cpu)?)?;
    Ok(Feeder { seat, lane, gate })
}

/// The outcome of the first delivery.
pub(crate) fn outcome_of(lane: &Lane) -> Option<Delivered> {
    match lane.records.first() {
        Some(record) => Some(record.outcome),
        None => None,
    }
}

/// Whether one of two CPUs began the run, and the other one found it begun.
fn one_began(first: &Lane, second: &Lane) -> bool {
    let outcomes = (outcome_of(first), outcome_of(second));
    let started = Some(Delivered::Done(Answer::Started));
    let kept = Some(Delivered::Done(Answer::Kept));
    outcomes == (started, kept) || outcomes == (kept, started)
}

#[test]
fn two_cpus_run_at_once(rt: HostRuntime) -> Result<(), Fail> {
    let BoardStart { board, mut seat } = one_board(rt.alloc())?;
    let second = board.split(&mut seat, 3);
    let first = board.split(&mut seat, 2);
    let a = AtomicU64::new(0);
    let b = AtomicU64::new(0);
    let met = AtomicU64::new(0);
    let gate = Meeting {
        own: &a,
        other: &b,
        met: &met,
    };
    let mut feeders = [
        feeder_of(rt.alloc(), &board, first, 0, gate.for_cpu(0))?,
        feeder_of(rt.alloc(), &board, second, 1, gate.for_cpu(1))?,
    ];
    run_feeders(&rt, &board, &[Reactor::Nop], &mut feeders, None);
    assert!(rt; met.load(Ordering::SeqCst) == 2);
    assert!(rt; one_began(&feeders[0].lane, &feeders[1].lane));
    Ok(())
}
