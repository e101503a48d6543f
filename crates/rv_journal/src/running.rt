//! A recorded run on counted words: a thread for each CPU, and one legal history of what they did.
ghost use Rattle.std.specs.Prelude.{◌≡◌, ◌+◌, ◌<◌, false, List, [], All, AllPairs, IfOk};
ghost use Rattle.rv_model.specs.declared.formula.Spec.{Spec};
ghost use Rattle.rv_model.specs.Histories.{input_with, IsLegal};
ghost use Rattle.rv_model.specs.Numbers.{has_bit};
ghost use Rattle.rv_core.specs.Judged.{AllMean};
ghost use Rattle.rv_core.specs.Setup.{judges_of};
ghost use Rattle.rv_board.specs.Known.{part};
ghost use Rattle.rv_board.specs.RunSeats.{IsFirst};
ghost use Rattle.rv_board.specs.Seats.{seat_value};
ghost use Rattle.rv_journal.specs.CountedSeats.{AreWidths, counted_value};
ghost use Rattle.rv_journal.specs.EntryTexts.{IsEntry};
ghost use Rattle.rv_journal.specs.Running.{FitsCountedWork, IsLegalBy};
ghost use Rattle.rv_journal.specs.inner.Running.{IsSeatedFor, AreCountedSeated, AreJoined};

use crate::board::{CountedBoard, CountedStart};
use crate::entries::closed_of;
use crate::feeding::{CountedFeeder, run_counted};
use crate::lane::{CountedLane, cpu_of};
use crate::merging::merge;
use crate::seat::CountedSeat;
use crate::words::Width;
use rv_core::Setup;
use rv_io::Gate;
use rv_model::{Closed, CpuWork, Entry};
use std::alloc::{AllocError, Global};
use std::thread::Threads;

/// What a recorded run came to: its merged history, as a list and as contracts see it.
#[derive(Drop)]
pub struct Recorded {
    pub entries: Vec<Entry>,
    pub closed: Closed,
}

/// Makes the work's feeder, whose new seat takes over the seat's numbers from that of the work's CPU on.
fn seat_work<G: Gate>(
    alloc: Global,
    board: &CountedBoard,
    seat: &mut CountedSeat,
    work: CpuWork,
    gate: &G,
) -> Result<CountedFeeder<G>, AllocError>
    requires first { IsFirst board.now seat.old.seat }
    requires work { FitsCountedWork board.now.setup work }
    requires below { 2 + work.cpu < seat.old.seat.part.end }
    ensures { IfOk result (λ feeder. IsSeatedFor board.now seat.old.seat seat.new.seat work feeder) }
{
    let lane = CountedLane::new(alloc, work)?;
    let cpu = cpu_of(&lane);
    let own = board.split(seat, 2 + cpu);
    Ok(CountedFeeder {
        seat: own,
        lane,
        gate: gate.for_cpu(cpu),
    })
}

/// A feeder for each work, from the last work to the first, each with a new seat split off from the first one.
fn seat_works<G: Gate>(
    alloc: Global,
    board: &CountedBoard,
    seat: &mut CountedSeat,
    mut works: Vec<CpuWork>,
    gate: &G,
) -> Result<Vec<CountedFeeder<G>>, AllocError>
    requires seat { seat.old ≡ counted_value (seat_value (part 0 67 [] []) board.now) 4000000 }
    requires fit { All (FitsCountedWork board.now.setup) works.items }
    requires ascend { AllPairs (λ v w. v.cpu < w.cpu) works.items }
    ensures { IfOk result (λ feeders. AreCountedSeated board.now seat.new.seat works.items [] feeders.items) }
{
    let mut feeders = Vec::new(alloc);
    while let Some(work) = works.pop() {
        feeders.push(seat_work(alloc, board, seat, work, gate)?)?;
    }
    Ok(feeders)
}

/// Joins the seats of all feeders into one, and gives their lanes, in the order of the works.
fn join_all<G: Gate>(
    alloc: Global,
    board: &CountedBoard,
    into: &mut CountedSeat,
    mut feeders: Vec<CountedFeeder<G>>,
) -> Result<Vec<CountedLane>, AllocError>
    requires into { into.old.seat.board ≡ board.now }
    requires seats { All (λ f. f.seat.seat.board ≡ board.now) feeders.items }
    ensures { IfOk result (λ lanes. AreJoined board.now into.old.seat into.new.seat feeders.items lanes.items) }
{
    let mut lanes = Vec::new(alloc);
    while let Some(feeder) = feeders.pop() {
        let CountedFeeder {
            seat,
            lane,
            gate: _gate,
        } = feeder;
        board.join(into, seat);
        lanes.push(lane)?;
    }
    Ok(lanes)
}

/// Runs the works at once, and merges what their CPUs did into one legal history. Which one it is, the schedule
/// decides. The works ascend by their CPUs, and the switches enable all their deliveries. The one error is want of
/// memory, also after the run.
pub fn record_run<R: Threads + Sync, G: Gate + Send>(
    rt: &R,
    alloc: Global,
    setup: Setup,
    widths: Vec<Width>,
    works: Vec<CpuWork>,
    gate: &G,
) -> Result<Recorded, AllocError>
    requires widths { AreWidths setup widths.items }
    requires fit { All (FitsCountedWork setup) works.items }
    requires ascend { AllPairs (λ v w. v.cpu < w.cpu) works.items }
    requires running { has_bit setup.switches 34 ≡ false }
    ensures legal { IfOk result (λ recorded. IsLegal (input_with setup [] (λ _. false) works.items []) (judges_of setup) recorded.closed) }
    ensures specs { IfOk result (λ recorded. (specs : List Spec) → AllMean specs setup.tables → IsLegalBy setup specs works.items recorded.closed) }
    ensures closed { IfOk result (λ recorded. recorded.closed ≡ recorded.entries.items) }
    ensures entries { IfOk result (λ recorded. All IsEntry recorded.entries.items) }
{
    setup.assert_invariant();
    let CountedStart { board, mut seat } = CountedBoard::new(alloc, setup, widths)?;
    let mut feeders = seat_works(alloc, &board, &mut seat, works, gate)?;
    run_counted(rt, &board, feeders.as_mut_slice());
    let lanes = join_all(alloc, &board, &mut seat, feeders)?;
    seat.number();
    let entries = merge(alloc, board.setup(), &seat, lanes.as_slice())?;
    // The merged history is given out, since the board's own has no looks.
    board.close(seat);
    let closed = closed_of(entries.as_slice());
    Ok(Recorded { entries, closed })
}
