//! All scripts at once: a thread for each CPU, and one for the control actor.
ghost use Rattle.std.specs.Prelude.{◌≡◌, ◌<◌, length, All, IfSome};
ghost use Rattle.std.specs.List.{AllZip};
ghost use Rattle.std.specs.Thread.{IsSync, IsSend};
ghost use Rattle.rv_feed.specs.Lane.{panics_of};
ghost use Rattle.rv_feed.specs.Feeders.{FitsFeeder, RunsFeeder, FitsChanger, RunsChanger, IfLent};

use crate::changer::{Changer, run_changer};
use crate::feeder::{CpuScript, Feeder};
use rv_board::Board;
use rv_io::Gate;
use rv_model::Reactor;
use std::thread::{Threads, join_mut};

/// Runs scripts at once: their list is halved until each has a thread of its own. Returns once all have
/// ended.
#[cycle(halves)]
pub fn run_halves<R: Threads + Sync, F: CpuScript + Send>(
    rt: &R,
    board: &Board,
    reactors: &[Reactor],
    feeders: &mut [F],
)
    requires { All (F.fits board.now) feeders.old }
    ensures { AllZip (F.runs (panics_of reactors.now)) feeders.old feeders.new }
{
    if feeders.len() == 0 {
        return;
    }
    if feeders.len() == 1 {
        feeders[0].run(board, reactors);
        return;
    }
    let (low, high) = feeders.split_at_mut(feeders.len() / 2);
    run_both(rt, board, reactors, low, high);
}

#[cycle(halves)]
fn run_both<R: Threads + Sync, F: CpuScript + Send>(
    rt: &R,
    board: &Board,
    reactors: &[Reactor],
    low: &mut [F],
    high: &mut [F],
)
    requires some { (0 < length low.old) × (0 < length high.old) }
    requires low { All (F.fits board.now) low.old }
    requires high { All (F.fits board.now) high.old }
    ensures low { AllZip (F.runs (panics_of reactors.now)) low.old low.new }
    ensures high { AllZip (F.runs (panics_of reactors.now)) high.old high.new }
{
    let mut left = ||
        requires { IsSync R.row × IsSend F.row × All (F.fits board.now) low.now }
        ensures { AllZip (F.runs (panics_of reactors.entry.now)) low.entry.now low.exit.now }
    { run_halves(rt, board, reactors, low) };
    let mut right = ||
        requires { IsSync R.row × IsSend F.row × All (F.fits board.now) high.now }
        ensures { AllZip (F.runs (panics_of reactors.entry.now)) high.entry.now high.exit.now }
    { run_halves(rt, board, reactors, high) };
    join_mut(rt, &mut left, &mut right);
}

fn run_beside<R: Threads + Sync, G: Gate + Send, F: CpuScript + Send>(
    rt: &R,
    board: &Board,
    reactors: &[Reactor],
    changer: &mut Changer<G>,
    feeders: &mut [F],
)
    requires feeders { All (F.fits board.now) feeders.old }
    requires changer { FitsChanger board.now changer.old }
    ensures feeders { AllZip (F.runs (panics_of reactors.now)) feeders.old feeders.new }
    ensures changer { RunsChanger changer.old changer.new }
{
    let mut left = ||
        requires { FitsChanger board.now changer.now }
        ensures { RunsChanger changer.entry.now changer.exit.now }
    { run_changer(board, changer) };
    let mut right = ||
        requires { IsSync R.row × IsSend F.row × All (F.fits board.now) feeders.now }
        ensures { AllZip (F.runs (panics_of reactors.entry.now)) feeders.entry.now feeders.exit.now }
    { run_halves(rt, board, reactors, feeders) };
    join_mut(rt, &mut left, &mut right);
}

/// Runs all scripts at once, with the control actor beside them where it has changes.
pub(crate) fn run_all<R: Threads + Sync, G: Gate + Send, F: CpuScript + Send>(
    rt: &R,
    board: &Board,
    reactors: &[Reactor],
    feeders: &mut [F],
    changer: &mut Changer<G>,
)
    requires feeders { All (F.fits board.now) feeders.old }
    requires changer { FitsChanger board.now changer.old }
    ensures feeders { AllZip (F.runs (panics_of reactors.now)) feeders.old feeders.new }
    ensures changer { RunsChanger changer.old changer.new }
{
    changer.seat.number();
    if changer.changes.is_empty() {
        run_halves(rt, board, reactors, feeders);
    } else {
        run_beside(rt, board, reactors, changer, feeders);
    }
}

/// Runs all scripts at once, with the control actor beside them where there is one. Returns once all have ended.
pub fn run_feeders<R: Threads + Sync, G: Gate + Send>(
    rt: &R,
    board: &Board,
    reactors: &[Reactor],
    feeders: &mut [Feeder<G>],
    control: Option<&mut Changer<G>>,
)
    requires feeders { All (FitsFeeder board.now) feeders.old }
    requires control { IfSome control (λ changer. FitsChanger board.now changer.now) }
    ensures feeders { AllZip (RunsFeeder (panics_of reactors.now)) feeders.old feeders.new }
    ensures control { IfLent RunsChanger control.entry control.exit }
{
    match control {
        Some(changer) => run_beside(rt, board, reactors, changer, feeders),
        None => run_halves(rt, board, reactors, feeders),
    }
}
