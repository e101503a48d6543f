//! What is known of a lane, as calls that give it to a proof, and what its deliveries observed.
ghost use Rattle.std.specs.Prelude.{◌≡◌, ◌<◌, ◌+◌, ◌^◌, All, length, slice_index_or};
ghost use Rattle.rv_model.specs.Works.{IsWork};
ghost use Rattle.rv_journal.specs.declared.counted.Counted.{Counted};
ghost use Rattle.rv_journal.specs.inner.Merging.{HitFits, NumbersFit};

use crate::counted::Counted;
use crate::lane::CountedLane;
use rv_model::{Act, What};

/// A word fits 64 bits.
fn assert_word(word: u64)
    ensures { word < 2 ^ 64 }
{}

/// A set of atoms fits 32 bits.
fn assert_set(set: u32)
    ensures { set < 2 ^ 32 }
{}

/// Gives a proof that the sets of a delivery's hit are in range.
fn assert_act(act: &Act)
    ensures { HitFits act.now }
{
    if let Act::Deliver { hit, .. } = *act
        && let What::Ltl { on, off, pulse } = hit.what
    {
        assert_set(on);
        assert_set(off);
        assert_set(pulse);
    }
}

/// Gives a proof that the numbers of an item are in range.
fn assert_item(item: &Counted)
    ensures { NumbersFit item.now }
{
    assert_word(item.entry.after);
    assert_act(&item.entry.act);
}

/// Gives a proof that the lane's work is well formed.
fn assert_work(lane: &CountedLane)
    ensures { IsWork lane.now.work }
{
    let _ = &lane.work.turns;
}

/// Gives a proof that the lane's work is well formed, and that the numbers of its items are in range.
pub(crate) fn assert_observed(lane: &CountedLane)
    ensures work { IsWork lane.now.work }
    ensures numbers { All NumbersFit lane.now.counted }
{
    assert_work(lane);
    for item in items(lane) {
        assert_item(item);
    }
}

/// The number of the seat of the lane's CPU.
pub(crate) fn seat_of(lane: &CountedLane) -> u32
    ensures { result ≡ 2 + lane.now.work.cpu }
{
    2 + lane.work.cpu as u32
}

/// What the lane's deliveries observed, in order.
pub(crate) fn items(lane: &CountedLane) -> &[Counted]
    ensures { result.now ≡ lane.now.counted }
{
    lane.counted.as_slice()
}

pub(crate) fn item_count(lane: &CountedLane) -> usize
    ensures { result ≡ length lane.now.counted }
{
    lane.counted.len()
}

pub(crate) fn item_at(lane: &CountedLane, index: usize) -> Counted
    requires { index < length lane.now.counted }
    ensures { (c : Counted) → result ≡ slice_index_or lane.now.counted index c }
{
    lane.counted[index]
}
