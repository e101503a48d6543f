//! The control actor's changes on a board, in the order of their list.
ghost use Rattle.std.specs.Prelude.{◌<◌, ◌^◌, All, length, slice_index};
ghost use Rattle.rv_model.specs.declared.entry.Act.TheVariants.{Lower, Raise};
ghost use Rattle.rv_model.specs.Scripts.{bits_act, clears, change_acts, control_acts};
ghost use Rattle.rv_feed.specs.Changes.{DoesAll, CanChange, IsBelowHalt};
ghost use Rattle.rv_feed.specs.inner.Clearing.{of_instances};
ghost use Rattle.rv_feed.specs.Feeders.{FitsChanger, RunsChanger};

use rv_board::{Board, Seat};
use rv_io::Gate;
use rv_model::{Change, has_bit};

/// The number under which the control actor passes a gate.
pub(crate) const CONTROL: u32 = 64;

/// The control actor's seat, its changes in order, and the gate that it passes before each of them.
#[derive(Drop)]
pub struct Changer<G> {
    pub seat: Seat,
    pub changes: Vec<Change>,
    pub gate: G,
}

fn lower(board: &Board, seat: &mut Seat, bits: u64)
    requires seat { CanChange board.now seat.old }
    requires bits { bits < 2 ^ 34 }
    ensures { DoesAll seat.old seat.new (bits_act Lower bits) }
{
    seat.number();
    if bits != 0 {
        board.lower(seat, bits);
    }
}

fn raise(board: &Board, seat: &mut Seat, bits: u64)
    requires seat { CanChange board.now seat.old }
    requires bits { bits < 2 ^ 34 }
    ensures { DoesAll seat.old seat.new (bits_act Raise bits) }
{
    seat.number();
    if bits != 0 {
        board.raise(seat, bits);
    }
}

/// Clears the slots of a monitor, instance by instance.
fn clear_monitor(board: &Board, seat: &mut Seat, monitor: u8)
    requires seat { CanChange board.now seat.old }
    requires monitor { monitor < length board.now.setup.shape }
    ensures { DoesAll seat.old seat.new (of_instances board.now.setup.shape monitor (slice_index board.now.setup.shape monitor)) }
{
    seat.number();
    for instance in 0..board.shape().instances(monitor) {
        let slot = board.shape().slot(monitor, instance);
        board.clear(seat, slot);
    }
}

/// Clears the slots of the monitors in the set, and looks at no slot of another.
fn clear(board: &Board, seat: &mut Seat, set: u32)
    requires { CanChange board.now seat.old }
    ensures { DoesAll seat.old seat.new (clears board.now.setup.shape set) }
{
    seat.number();
    for monitor in 0..board.shape().monitors() {
        if has_bit(set as u64, monitor as usize) {
            clear_monitor(board, seat, monitor);
        }
    }
}

/// Makes one change: first what it turns off, then what it clears, and last what it turns on.
fn make(board: &Board, seat: &mut Seat, change: &Change)
    requires seat { CanChange board.now seat.old }
    requires bits { IsBelowHalt change.now }
    ensures { DoesAll seat.old seat.new (change_acts board.now.setup.shape change.now) }
{
    lower(board, seat, change.lower);
    clear(board, seat, change.clear);
    raise(board, seat, change.raise);
}

fn make_all<G: Gate>(board: &Board, seat: &mut Seat, changes: &[Change], gate: &mut G)
    requires seat { CanChange board.now seat.old }
    requires bits { All IsBelowHalt changes.now }
    ensures { DoesAll seat.old seat.new (control_acts board.now.setup.shape changes.now) }
{
    seat.number();
    for place in 0..changes.len() {
        gate.pass(CONTROL, place as u64);
        make(board, seat, &changes[place]);
    }
}

pub(crate) fn run_changer<G: Gate>(board: &Board, changer: &mut Changer<G>)
    requires { FitsChanger board.now changer.old }
    ensures { RunsChanger changer.old changer.new }
{
    make_all(
        board,
        &mut changer.seat,
        changer.changes.as_slice(),
        &mut changer.gate,
    );
}
