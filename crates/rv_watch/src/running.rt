//! A whole run at once, with a watcher beside the CPUs.
ghost use Rattle.std.specs.Prelude.{◌≡◌, ◌<◌, [], length, sum, All, AllPairs, IfOk};
ghost use Rattle.std.specs.List.{AllZip};
ghost use Rattle.std.specs.Thread.{IsSync, IsSend};
ghost use Rattle.rv_model.specs.Histories.{IsLegal};
ghost use Rattle.rv_feed.specs.Lane.{FitsLane, panics_of, works_of, lane_records};
ghost use Rattle.rv_feed.specs.Runs.{IsRunBySpecs};
ghost use Rattle.rv_watch.specs.Runs.{IsWatched};
ghost use Rattle.rv_watch.specs.Watching.{CanWatch, WatchesSlot};
ghost use Rattle.rv_watch.specs.Words.{AreKept};

use crate::watcher::{WATCHER, Watcher, watch};
use rv_board::{Board, BoardStart};
use rv_core::Setup;
use rv_feed::{CpuScript, Recorder, RecordingLane, join_all, run_halves, seat_lanes};
use rv_io::Gate;
use rv_model::{Closed, Reactor};
use std::alloc::{AllocError, Global};
use std::sync::atomic::{AtomicBool, Ordering};
use std::thread::{Threads, join_mut};

/// The number of the watcher's seat, which is behind those of all CPUs.
const SEAT: u32 = 66;

/// What a watched run came to: the lanes as they came, with their records, the words that the watcher kept, the word
/// after the whole run, and the history.
#[derive(Drop)]
pub struct Watched<C: Recorder> {
    pub lanes: Vec<RecordingLane<C>>,
    pub words: Vec<u64>,
    pub last: u64,
    pub closed: Closed,
}

/// The feeders' scripts, after which it is told that they are done.
fn run_then_tell<R: Threads + Sync, F: CpuScript + Send>(
    rt: &R,
    board: &Board,
    reactors: &[Reactor],
    feeders: &mut [F],
    done: &AtomicBool,
)
    requires { All (F.fits board.now) feeders.old }
    ensures { AllZip (F.runs (panics_of reactors.now)) feeders.old feeders.new }
{
    run_halves(rt, board, reactors, feeders);
    done.store(true, Ordering::SeqCst);
}

/// The watcher beside the feeders, until they are done.
fn run_watched<R: Threads + Sync, G: Gate + Send, F: CpuScript + Send>(
    rt: &R,
    board: &Board,
    reactors: &[Reactor],
    feeders: &mut [F],
    watcher: &mut Watcher<G>,
)
    requires feeders { All (F.fits board.now) feeders.old }
    requires watcher { CanWatch board.now watcher.old }
    ensures feeders { AllZip (F.runs (panics_of reactors.now)) feeders.old feeders.new }
    ensures watcher { WatchesSlot watcher.old watcher.new }
{
    let done = AtomicBool::new(false);
    let mut left = ||
        requires { IsSync R.row × IsSend F.row × All (F.fits board.now) feeders.now }
        ensures { AllZip (F.runs (panics_of reactors.entry.now)) feeders.entry.now feeders.exit.now }
    { run_then_tell(rt, board, reactors, feeders, &done) };
    let mut right = ||
        requires { CanWatch board.now watcher.now }
        ensures { WatchesSlot watcher.entry.now watcher.exit.now }
    { watch(board, watcher, &done) };
    join_mut(rt, &mut left, &mut right);
}

/// A legal history of the lanes' scripts at once, whose records the lanes then have, and words of the slot along it:
/// those that a watcher kept, and the last one. The lanes ascend by their CPUs.
pub fn feed_watched<R: Threads + Sync, G: Gate + Send, C: Recorder + Send>(
    rt: &R,
    alloc: Global,
    setup: Setup,
    reactors: &[Reactor],
    mut lanes: Vec<RecordingLane<C>>,
    slot: u32,
    gate: &G,
) -> Result<Watched<C>, AllocError>
    requires fit { All (FitsLane setup) lanes.items }
    requires ascend { AllPairs (λ l m. l.work.cpu < m.work.cpu) lanes.items }
    requires slot { slot < sum setup.shape }
    ensures legal { IfOk result (λ run. IsRunBySpecs IsLegal setup (panics_of reactors.now) (works_of lanes.items) [] (lane_records run.lanes.items) run.closed) }
    ensures works { IfOk result (λ run. works_of run.lanes.items ≡ works_of lanes.items) }
    ensures words { IfOk result (λ run. IsRunBySpecs (IsWatched slot run.words.items run.last) setup (panics_of reactors.now) (works_of lanes.items) [] (lane_records run.lanes.items) run.closed) }
    ensures kept { IfOk result (λ run. AreKept run.words.items) }
{
    setup.assert_invariant();
    let BoardStart { board, mut seat } = Board::new(alloc, setup)?;
    let own = board.split(&mut seat, SEAT);
    let mut watcher = Watcher::new(alloc, own, slot, gate.for_cpu(WATCHER))?;
    let mut feeders = seat_lanes(alloc, &board, &mut seat, &mut lanes, gate)?;
    run_watched(rt, &board, reactors, feeders.as_mut_slice(), &mut watcher);
    let Watcher {
        seat: own,
        slot: _slot,
        gate: _gate,
        words,
    } = watcher;
    join_all(&board, &mut seat, feeders, &mut lanes);
    board.join(&mut seat, own);
    let last = board.word(&mut seat, slot);
    Ok(Watched {
        lanes,
        words,
        last,
        closed: board.close(seat),
    })
}
