//! A whole run at once: a thread for each CPU, and one for the control actor where it has changes.
ghost use Rattle.std.specs.Prelude.{◌≡◌, ◌+◌, ◌<◌, ◌≤◌, ◌∷◌, [], ◌++◌, length, All, AllPairs, IfOk};
ghost use Rattle.rv_model.specs.Histories.{IsLegal};
ghost use Rattle.rv_board.specs.Known.{part};
ghost use Rattle.rv_board.specs.RunSeats.{HasTakenIn, IsFirst};
ghost use Rattle.rv_board.specs.Seats.{seat_value};
ghost use Rattle.rv_feed.specs.Changes.{IsBelowHalt};
ghost use Rattle.rv_feed.specs.Lane.{FitsLane, panics_of, works_of, lane_records};
ghost use Rattle.rv_feed.specs.AtOnce.{lanes_of, AreSeated};
ghost use Rattle.rv_feed.specs.Runs.{IsRunBySpecs};

use crate::changer::{CONTROL, Changer};
use crate::feeder::Feeder;
use crate::feeders::run_all;
use crate::lane::cpu_of;
use crate::recording::{Recorder, RecordingLane};
use rv_board::{Board, BoardStart, Seat};
use rv_core::Setup;
use rv_io::Gate;
use rv_model::{Change, Closed, Reactor};
use std::alloc::{AllocError, Global};
use std::thread::Threads;

/// The number of the control actor's seat.
const ACTOR: u32 = 1;

/// What a run at once came to: the lanes, with their records and in the order in which they were given, and the
/// history.
#[derive(Drop)]
pub struct FedLanes<C: Recorder> {
    pub lanes: Vec<RecordingLane<C>>,
    pub closed: Closed,
}

/// Makes the lane's feeder, whose new seat takes over the seat's numbers from that of the lane's CPU on.
fn seat_lane<G: Gate, C: Recorder>(
    board: &Board,
    seat: &mut Seat,
    lane: RecordingLane<C>,
    gate: &G,
) -> Feeder<G, RecordingLane<C>>
    requires board { seat.old.board ≡ board.now }
    requires range { (seat.old.part.number < 2 + lane.work.cpu) × (2 + lane.work.cpu < seat.old.part.end) }
    ensures lane { result.lane ≡ lane }
    ensures new { result.seat ≡ seat_value (part (2 + lane.work.cpu) seat.old.part.end [] seat.old.part.seen) seat.old.board }
    ensures old { seat.new ≡ seat_value (part seat.old.part.number (2 + lane.work.cpu) seat.old.part.joined_in seat.old.part.seen) seat.old.board }
{
    let cpu = cpu_of(&lane);
    let own = board.split(seat, 2 + cpu);
    Feeder {
        seat: own,
        lane,
        gate: gate.for_cpu(cpu),
    }
}

/// A feeder for each lane, from the last lane to the first, each with a new seat split off from the first one. All
/// lanes are taken out of the vector, whose room stays for `join_all`. The one error is want of memory.
pub fn seat_lanes<G: Gate, C: Recorder>(
    alloc: Global,
    board: &Board,
    seat: &mut Seat,
    lanes: &mut Vec<RecordingLane<C>>,
    gate: &G,
) -> Result<Vec<Feeder<G, RecordingLane<C>>>, AllocError>
    requires seat { IsFirst board.now seat.old }
    requires end { 65 < seat.old.part.end }
    requires fit { All (FitsLane board.now.setup) lanes.old.items }
    requires ascend { AllPairs (λ l m. l.work.cpu < m.work.cpu) lanes.old.items }
    ensures feeders { IfOk result (λ feeders. AreSeated board.now seat.old.part.end seat.new lanes.old.items [] feeders.items) }
    ensures empty { IfOk result (λ _. lanes.new.items ≡ []) }
    ensures room { length lanes.old.items ≤ lanes.new.cap }
{
    let mut feeders = Vec::with_capacity(alloc, lanes.len())?;
    while let Some(lane) = lanes.pop() {
        feeders.push(seat_lane(board, seat, lane, gate))?;
    }
    Ok(feeders)
}

fn put_back<C: Recorder>(lanes: &mut Vec<RecordingLane<C>>, lane: RecordingLane<C>)
    requires { length lanes.old.items < lanes.old.cap }
    ensures lanes { lanes.new.items ≡ lanes.old.items ++ lane ∷ [] }
    ensures room { lanes.old.cap ≤ lanes.new.cap }
{
    match lanes.push(lane) {
        Ok(()) => (),
        Err(_) => unreachable!(),
    }
}

/// Joins the seats of all feeders into one, and appends their lanes to `lanes`, in the order that they had before
/// `seat_lanes`. Asks for no memory.
pub fn join_all<G: Gate, C: Recorder>(
    board: &Board,
    into: &mut Seat,
    mut feeders: Vec<Feeder<G, RecordingLane<C>>>,
    lanes: &mut Vec<RecordingLane<C>>,
)
    requires into { into.old.board ≡ board.now }
    requires seats { All (λ f. f.seat.board ≡ board.now) feeders.items }
    requires room { length lanes.old.items + length feeders.items ≤ lanes.old.cap }
    ensures board { into.new.board ≡ board.now }
    ensures into { HasTakenIn into.new into.old }
    ensures seats { All (λ f. HasTakenIn into.new f.seat) feeders.items }
    ensures lanes { lanes.new.items ≡ lanes.old.items ++ lanes_of feeders.items }
{
    while let Some(feeder) = feeders.pop() {
        let Feeder {
            seat,
            lane,
            gate: _gate,
        } = feeder;
        board.join(into, seat);
        put_back(lanes, lane);
    }
}

/// Runs the lanes' scripts and the changes at once, and gives the lanes with their records, and a legal history. Which
/// one it is, the schedule decides. The lanes ascend by their CPUs. The one error is want of memory, before the first
/// entry.
pub fn feed<R: Threads + Sync, G: Gate + Send, C: Recorder + Send>(
    rt: &R,
    alloc: Global,
    setup: Setup,
    reactors: &[Reactor],
    mut lanes: Vec<RecordingLane<C>>,
    changes: Vec<Change>,
    gate: &G,
) -> Result<FedLanes<C>, AllocError>
    requires fit { All (FitsLane setup) lanes.items }
    requires ascend { AllPairs (λ l m. l.work.cpu < m.work.cpu) lanes.items }
    requires changes { All IsBelowHalt changes.items }
    ensures legal { IfOk result (λ fed. IsRunBySpecs IsLegal setup (panics_of reactors.now) (works_of lanes.items) changes.items (lane_records fed.lanes.items) fed.closed) }
    ensures works { IfOk result (λ fed. works_of fed.lanes.items ≡ works_of lanes.items) }
{
    setup.assert_invariant();
    let BoardStart { board, mut seat } = Board::new(alloc, setup)?;
    let mut feeders = seat_lanes(alloc, &board, &mut seat, &mut lanes, gate)?;
    let mut changer = Changer {
        seat: board.split(&mut seat, ACTOR),
        changes,
        gate: gate.for_cpu(CONTROL),
    };
    run_all(rt, &board, reactors, feeders.as_mut_slice(), &mut changer);
    let Changer {
        seat: actor,
        changes: _changes,
        gate: _gate,
    } = changer;
    board.join(&mut seat, actor);
    join_all(&board, &mut seat, feeders, &mut lanes);
    Ok(FedLanes {
        lanes,
        closed: board.close(seat),
    })
}
