//! All scripts on one thread: again and again the lane goes on whose next turn has the least line.
ghost use Rattle.rv_model.specs.declared.work.Turn.{Turn};
ghost use Rattle.std.specs.Prelude.{◌≡◌, ◌≢◌, ℕ, ◌^◌, ◌<◌, ◌≤◌, true, List, map, length, replicate, All, AllPairs, slice_index, slice_index_or};
ghost use Rattle.rv_core.specs.Deliveries.{FitsDelivery};
ghost use Rattle.rv_feed.specs.Lane.{LaneValue, FitLanes, panics_of};
ghost use Rattle.rv_feed.specs.Order.{Ran};
ghost use Rattle.rv_feed.specs.inner.SoFar.{IsPending, next_line, HasLines, IsLeast, PlaysNext};

use crate::lane::{Keeper, Lane, assert_invariant, seat_of, turn_at, turn_count};
use crate::turn::play_turn;
use rv_core::Core;
use rv_io::{Gate, OpenGate};
use rv_model::Reactor;

/// A line that is larger than any turn's, for a lane without a next turn.
const NO_LINE: u64 = 1 << 32;

/// A lane by its index, and the line of its next turn.
#[derive(Clone, Copy, Drop)]
pub(crate) struct NextTurn {
    pub lane: usize,
    pub line: u64,
}

/// The line of the lane's next turn, or `NO_LINE`. `places` has the index of the next turn, by CPU.
fn line_of<L: Keeper>(lane: &L, places: &[usize; 64]) -> u64
    requires { (L.lane lane.now).work.cpu < 64 }
    ensures line { IsPending places.now (L.lane lane.now) → result ≡ next_line places.now (L.lane lane.now) }
    ensures range { IsPending places.now (L.lane lane.now) → result < 2 ^ 32 }
    ensures none { result ≤ 2 ^ 32 }
    ensures pending { result < 2 ^ 32 → IsPending places.now (L.lane lane.now) }
{
    let place = places[seat_of(lane) as usize - 2];
    if place < turn_count(lane) {
        turn_at(lane, place).line as u64
    } else {
        NO_LINE
    }
}

/// The line of each lane's first turn, at the index of its CPU.
fn first_lines<L: Keeper>(lanes: &[L]) -> [u64; 64]
    requires cpu { All (λ l. (L.lane l).work.cpu < 64) lanes.now }
    requires cpus { AllPairs (λ l m. l.work.cpu ≢ m.work.cpu) (map L.lane lanes.now) }
    ensures { HasLines (replicate 64 0) result (map L.lane lanes.now) }
{
    let places: [usize; 64] = [0; 64];
    let mut lines: [u64; 64] = [NO_LINE; 64];
    for at in 0..lanes.len() {
        let lane = &lanes[at];
        let cpu = seat_of(lane) as usize - 2;
        lines[cpu] = line_of(lane, &places);
    }
    lines
}

/// The lane whose next turn has the least line. The lines are indexed by CPU.
fn least<L: Keeper>(lanes: &[L], lines: &[u64; 64]) -> NextTurn
    requires { All (λ l. (L.lane l).work.cpu < 64) lanes.now }
    ensures { (places : List ℕ) → HasLines places lines.now (map L.lane lanes.now) → IsLeast places (map L.lane lanes.now) result }
{
    let mut best = NextTurn {
        lane: 0,
        line: NO_LINE,
    };
    for at in 0..lanes.len() {
        let lane = &lanes[at];
        let line = lines[seat_of(lane) as usize - 2];
        if line < best.line {
            best = NextTurn { lane: at, line };
        }
    }
    best
}

/// Whether there is a lane at the index `at`, and its next turn has this line. The lines are indexed by CPU.
fn goes_on<L: Keeper>(lanes: &[L], lines: &[u64; 64], at: usize, line: u64) -> bool
    requires { All (λ l. (L.lane l).work.cpu < 64) lanes.now }
    ensures within { result ≡ true → at < length lanes.now }
    ensures line { (d : LaneValue) → result ≡ true → slice_index lines.now (slice_index_or (map L.lane lanes.now) at d).work.cpu ≡ line }
{
    if at < lanes.len() {
        let lane = &lanes[at];
        lines[seat_of(lane) as usize - 2] == line
    } else {
        false
    }
}

/// The lane whose next turn has the least line, where no next turn has a line below `from`. Two lanes are asked first
/// whether they go on with the line `from`, as one of them mostly does: the lane that played last, and the one after
/// it.
fn next_lane<L: Keeper>(lanes: &[L], lines: &[u64; 64], last: usize, from: u64) -> NextTurn
    requires cpu { All (λ l. (L.lane l).work.cpu < 64) lanes.now }
    requires few { from ≤ 2 ^ 32 }
    ensures { (places : List ℕ) → HasLines places lines.now (map L.lane lanes.now) → All (λ l. IsPending places l → from ≤ next_line places l) (map L.lane lanes.now) → IsLeast places (map L.lane lanes.now) result }
{
    if goes_on(lanes, lines, last, from) {
        return NextTurn {
            lane: last,
            line: from,
        };
    }
    let behind = last.saturating_add(1);
    let other = if behind < lanes.len() { behind } else { 0 };
    if goes_on(lanes, lines, other, from) {
        return NextTurn {
            lane: other,
            line: from,
        };
    }
    least(lanes, lines)
}

/// Plays the lane's turn at the index `place`, and gives the index of its next turn, which is past the end where the
/// script has ended.
fn play_next<L: Keeper>(core: &mut Core, reactors: &[Reactor], lane: &mut L, place: usize) -> usize
    requires place { place < length (L.lane lane.old).work.turns }
    requires fit { All (FitsDelivery core.old.setup) (L.lane lane.old).work.deliveries }
    requires kept { (t : Turn) → length (L.lane lane.old).records ≤ (slice_index_or (L.lane lane.old).work.turns place t).from }
    requires room { length (L.lane lane.old).work.deliveries ≤ (L.lane lane.old).room }
    ensures { PlaysNext (panics_of reactors.now) core.old core.new (L.lane lane.old) (L.lane lane.new) place result }
{
    assert_invariant(lane.work());
    let count = turn_count(lane);
    let turn = turn_at(lane, place);
    if play_turn(core, &(), reactors, &turn, lane, &mut OpenGate) {
        count
    } else {
        place + 1
    }
}

/// Runs the scripts of lanes of any kind, their turns in the order of their lines. Asks for no memory.
pub(crate) fn run_lanes<L: Keeper>(core: &mut Core, reactors: &[Reactor], lanes: &mut [L])
    requires { FitLanes core.old.setup (map L.lane lanes.old) }
    ensures { Ran (panics_of reactors.now) core.old core.new (map L.lane lanes.old) (map L.lane lanes.new) }
{
    let mut places: [usize; 64] = [0; 64];
    let mut lines = first_lines(lanes);
    let mut from: u64 = 0;
    let mut last: usize = 0;
    loop {
        let next = next_lane(lanes, &lines, last, from);
        if next.line == NO_LINE {
            return;
        }
        let lane = &mut lanes[next.lane];
        let cpu = seat_of(lane) as usize - 2;
        places[cpu] = play_next(core, reactors, lane, places[cpu]);
        lines[cpu] = line_of(lane, &places);
        from = next.line + 1;
        last = next.lane;
    }
}

/// Runs all scripts on one thread, their turns in the order of their lines. Asks for no memory.
pub fn run_in_order(core: &mut Core, reactors: &[Reactor], lanes: &mut [Lane])
    requires { FitLanes core.old.setup lanes.old }
    ensures { Ran (panics_of reactors.now) core.old core.new lanes.old lanes.new }
{
    run_lanes(core, reactors, lanes);
}
