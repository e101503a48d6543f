//! A feeder: one CPU's script on a board.
ghost use Rattle.std.specs.Prelude.{◌≡◌, ℕ, Bool};
ghost use Rattle.rv_board.specs.Seats.{BoardId};
ghost use Rattle.rv_feed.specs.Lane.{panics_of};
ghost use Rattle.rv_feed.specs.Feeders.{FitsSeat};
ghost use Rattle.rv_feed.specs.Feeding.{CanFeed, Feeds};

use crate::lane::{Keeper, Lane, assert_invariant, cpu_of, turn_at, turn_count};
use crate::turn::play_turn;
use rv_board::{Board, Seat};
use rv_io::Gate;
use rv_model::Reactor;

/// A CPU's seat, its lane, and the gate that it passes before each turn and within each delivery.
#[derive(Drop)]
pub struct Feeder<G, L = Lane> {
    pub seat: Seat,
    pub lane: L,
    pub gate: G,
}

/// All turns, or as many as come before the script ends.
fn play<L: Keeper, G: Gate>(
    board: &Board,
    seat: &mut Seat,
    reactors: &[Reactor],
    lane: &mut L,
    gate: &mut G,
)
    requires board { seat.old.board ≡ board.now }
    requires lane { CanFeed board.now (L.lane lane.old) }
    ensures { Feeds (panics_of reactors.now) seat.old seat.new (L.lane lane.old) (L.lane lane.new) }
{
    assert_invariant(lane.work());
    seat.number();
    let cpu = cpu_of(lane);
    for place in 0..turn_count(lane) {
        gate.pass(cpu, place as u64);
        let turn = turn_at(lane, place);
        if play_turn(seat, board, reactors, &turn, lane, gate) {
            return;
        }
    }
}

/// A script of one CPU on a board, which may have a thread of its own.
pub trait CpuScript {
    /// It can be run on this board.
    ghost fits: { BoardId → Self → Type 0 };

    /// With these reactors it was run, from the one value to the other.
    ghost runs: { (ℕ → Bool) → Self → Self → Type 0 };

    /// All of it.
    fn run(&mut self, board: &Board, reactors: &[Reactor])
        requires { fits board.now self.old }
        ensures { runs (panics_of reactors.now) self.old self.new };
}

impl<G: Gate, L: Keeper> CpuScript for Feeder<G, L> {
    ghost fits = { λ board f. FitsSeat board f.seat (L.lane f.lane) };

    ghost runs = { λ panics old new. Feeds panics old.seat new.seat (L.lane old.lane) (L.lane new.lane) };

    fn run(&mut self, board: &Board, reactors: &[Reactor]) {
        play(
            board,
            &mut self.seat,
            reactors,
            &mut self.lane,
            &mut self.gate,
        );
    }
}
