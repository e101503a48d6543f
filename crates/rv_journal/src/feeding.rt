//! All deliveries of all CPUs at once, on a counted board: a thread for each CPU.
ghost use Rattle.std.specs.Prelude.{◌≡◌, ◌<◌, ◌≤◌, [], ◌∷◌, length, All};
ghost use Rattle.std.specs.List.{AllZip};
ghost use Rattle.std.specs.Thread.{IsSync, IsSend};
ghost use Rattle.rv_journal.specs.CountedLanes.{IsNewCountedLane, FitsCounted, FeedsCounted};
ghost use Rattle.rv_journal.specs.CountedFeeders.{FitsCountedFeeder, RunsCounted};

use crate::board::CountedBoard;
use crate::counted::Counted;
use crate::lane::{CountedLane, assert_invariant, cpu_of, delivery_at, keep, turn_at, turn_count};
use crate::seat::CountedSeat;
use rv_io::Gate;
use rv_model::Delivery;
use std::thread::{Threads, join_mut};

/// A CPU's seat, its lane, and the gate that it passes before each turn and within each delivery.
#[derive(Drop)]
pub struct CountedFeeder<G> {
    pub seat: CountedSeat,
    pub lane: CountedLane,
    pub gate: G,
}

/// Makes a delivery to the slot of its instance.
fn serve<G: Gate>(
    board: &CountedBoard,
    seat: &mut CountedSeat,
    cpu: u32,
    delivery: &Delivery,
    gate: &mut G,
) -> Counted
    requires board { seat.old.seat.board ≡ board.now }
    requires fits { FitsCounted board.now.setup delivery.now }
    requires left { 0 < seat.old.left }
    ensures { FeedsCounted seat.old seat.new (delivery.now ∷ []) (result ∷ []) }
{
    let slot = board.shape().slot(delivery.monitor, delivery.instance);
    board.deliver(seat, cpu, slot, &delivery.hit, gate)
}

/// Makes all deliveries of a lane, turn by turn, and keeps what each of them observed.
fn feed<G: Gate>(board: &CountedBoard, seat: &mut CountedSeat, lane: &mut CountedLane, gate: &mut G)
    requires board { seat.old.seat.board ≡ board.now }
    requires lane { IsNewCountedLane lane.old.work lane.old }
    requires fit { All (FitsCounted board.now.setup) lane.old.work.deliveries }
    requires left { length lane.old.work.deliveries ≤ seat.old.left }
    ensures feeds { FeedsCounted seat.old seat.new lane.old.work.deliveries lane.new.counted }
    ensures work { lane.new.work ≡ lane.old.work }
{
    assert_invariant(lane);
    seat.number();
    let cpu = cpu_of(lane);
    for place in 0..turn_count(lane) {
        gate.pass(cpu, place as u64);
        let turn = turn_at(lane, place);
        for number in turn.from..turn.to {
            let delivery = delivery_at(lane, number);
            let told = serve(board, seat, cpu, &delivery, gate);
            keep(lane, told);
        }
    }
}

fn run_feeder<G: Gate>(board: &CountedBoard, feeder: &mut CountedFeeder<G>)
    requires { FitsCountedFeeder board.now feeder.old }
    ensures { RunsCounted feeder.old feeder.new }
{
    feed(board, &mut feeder.seat, &mut feeder.lane, &mut feeder.gate);
}

/// Makes all deliveries of the feeders at once: their list is halved until each has a thread of its own. Returns once
/// all have ended.
#[cycle(halves)]
pub fn run_counted<R: Threads + Sync, G: Gate + Send>(
    rt: &R,
    board: &CountedBoard,
    feeders: &mut [CountedFeeder<G>],
)
    requires feeders { All (FitsCountedFeeder board.now) feeders.old }
    ensures { AllZip RunsCounted feeders.old feeders.new }
{
    if feeders.len() == 0 {
        return;
    }
    if feeders.len() == 1 {
        run_feeder(board, &mut feeders[0]);
        return;
    }
    let (low, high) = feeders.split_at_mut(feeders.len() / 2);
    run_both(rt, board, low, high);
}

#[cycle(halves)]
fn run_both<R: Threads + Sync, G: Gate + Send>(
    rt: &R,
    board: &CountedBoard,
    low: &mut [CountedFeeder<G>],
    high: &mut [CountedFeeder<G>],
)
    requires some { (0 < length low.old) × (0 < length high.old) }
    requires low { All (FitsCountedFeeder board.now) low.old }
    requires high { All (FitsCountedFeeder board.now) high.old }
    ensures low { AllZip RunsCounted low.old low.new }
    ensures high { AllZip RunsCounted high.old high.new }
{
    let mut left = ||
        requires { IsSync R.row × IsSend G.row × All (FitsCountedFeeder board.now) low.now }
        ensures { AllZip RunsCounted low.entry.now low.exit.now }
    { run_counted(rt, board, low) };
    let mut right = ||
        requires { IsSync R.row × IsSend G.row × All (FitsCountedFeeder board.now) high.now }
        ensures { AllZip RunsCounted high.entry.now high.exit.now }
    { run_counted(rt, board, high) };
    join_mut(rt, &mut left, &mut right);
}
