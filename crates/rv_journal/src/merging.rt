//! One legal history out of the lists of all CPUs: steps are placed one at a time, always of the lowest CPU whose next
//! step is ready (this project's choice: docs/DECISIONS.md, "The order of a merged history").
ghost use Rattle.std.specs.Prelude.{◌≡◌, ◌+◌, ◌<◌, ◌^◌, ◌↔◌, ⊤, ℕ, true, false, List, [], length, sum, All, IfOk, OnOk, MatchOption, slice_index};
ghost use Rattle.rv_model.specs.declared.entry.Entry.{Entry};
ghost use Rattle.rv_model.specs.Cuts.{AtEach};
ghost use Rattle.rv_model.specs.Works.{IsWork};
ghost use Rattle.rv_journal.specs.inner.MergeSteps.{rest_of, IsCursor, GoesTo};
ghost use Rattle.rv_journal.specs.inner.MergeRuns.{merge_run, lane_at, IsMerging, InSlots, IsReadyAt, CannotGoAt, IsLowestReady, NoneReady, steps_left};
ghost use Rattle.rv_journal.specs.inner.MergePending.{is_ready, changes_after};
ghost use Rattle.rv_journal.specs.MergeOrder.{IsOfLowest};
ghost use Rattle.rv_journal.specs.Merging.{CanMerge, IsMergeOf, seat_of};
ghost use Rattle.rv_journal.specs.inner.Merging.{NumbersFit};

use crate::lane::{CountedLane, cpu_of};
use crate::observed::{assert_observed, items, seat_of};
use crate::pending::{Pending, hold_items, release_pending, waiting};
use crate::seat::CountedSeat;
use crate::steps::{LaneProgress, MergeStep, NextStep, entry_of, interval_of, leaves, slot_of};
use rv_core::Setup;
use rv_model::Entry;
use std::alloc::{AllocError, Global};
use std::collections::HashMap;

/// A merge under way.
#[derive(Drop)]
pub struct Merging {
    /// The entries placed so far, in the order of the merged history.
    pub placed: Vec<Entry>,
    /// How far each lane has come, by the lane's index.
    pub cursors: Vec<LaneProgress>,
    /// By slot, how many placed entries changed its word: its version in the merged history.
    pub changes: Vec<u64>,
    /// How many entries and Stops are pending in each interval.
    pub waits: Pending,
}

/// Gives a proof that the works of all lanes are well formed, and that the numbers of their items are in range.
fn assert_lanes(lanes: &[CountedLane])
    ensures works { All (λ l. IsWork l.work) lanes.now }
    ensures numbers { All (λ l. All NumbersFit l.counted) lanes.now }
{
    for lane in lanes {
        assert_observed(lane);
    }
}

fn slots_of(setup: &Setup) -> usize
    ensures { result ≡ sum setup.now.shape }
{
    setup.shape.slots() as usize
}

fn switches_of(setup: &Setup) -> u64
    ensures { result ≡ setup.now.switches }
{
    setup.switches
}

/// Counts the step for its slot, if it changes the slot's word.
fn count(changes: &mut Vec<u64>, step: &MergeStep)
    requires slot { InSlots (length changes.old.items) step.now }
    requires room { (slot : ℕ) → slice_index changes.old.items slot + 1 < 2 ^ 64 }
    ensures { changes.new.items ≡ changes_after changes.old.items step.now }
{
    if let MergeStep::Item(item) = step
        && !leaves(&item.entry)
    {
        changes[slot_of(&item.entry.act) as usize] += 1;
    }
}

/// The next step of the lane at `index`, which has come as far as the cursor.
fn next_from(cursor: &LaneProgress, lanes: &[CountedLane], index: usize) -> Option<NextStep>
    requires low { index < length lanes.now }
    requires cursor { IsCursor (lane_at lanes.now index) cursor.now }
    ensures { MatchOption result (rest_of (lane_at lanes.now index) cursor.now ≡ []) (λ next. GoesTo (lane_at lanes.now index) cursor.now next.step next.cursor) }
{
    cursor.next(&lanes[index])
}

fn cpu_at(lanes: &[CountedLane], index: usize) -> u32
    requires { index < length lanes.now }
    ensures { result ≡ (lane_at lanes.now index).work.cpu }
{
    cpu_of(&lanes[index])
}

fn seat_at(lanes: &[CountedLane], index: usize) -> u32
    requires { index < length lanes.now }
    ensures { result ≡ seat_of (lane_at lanes.now index) }
{
    seat_of(&lanes[index])
}

/// Whether the lane at `index` is of a lower CPU than the lane at `found`, if one was found.
fn is_lower(lanes: &[CountedLane], index: usize, found: Option<usize>) -> bool
    requires index { index < length lanes.now }
    requires found { MatchOption found ⊤ (λ l. l < length lanes.now) }
    ensures { (result ≡ true) ↔ MatchOption found ⊤ (λ l. (lane_at lanes.now index).work.cpu < (lane_at lanes.now l).work.cpu) }
{
    match found {
        None => true,
        Some(found) => cpu_at(lanes, index) < cpu_at(lanes, found),
    }
}

impl Merging {
    /// A merge in which nothing is placed, and all that the lanes' items make pending is counted.
    fn new(alloc: Global, setup: &Setup, lanes: &[CountedLane]) -> Result<Merging, AllocError>
        ghost seen: { List Entry }
        requires { CanMerge setup.now seen lanes.now }
        ensures { IfOk result (λ m. IsMerging (merge_run setup.now seen) lanes.now m.placed.items m.cursors.items m.changes.items m.waits) }
    {
        setup.assert_invariant();
        assert_lanes(lanes);
        let mut waits = HashMap::new(alloc);
        let mut cursors = Vec::new(alloc);
        for lane in lanes {
            hold_items(&mut waits, items(lane))?;
            cursors.push(LaneProgress { turns: 0, items: 0 })?;
        }
        let changes = vec![in alloc; 0; slots_of(setup)]?;
        Ok(Merging {
            placed: Vec::new(alloc),
            cursors,
            changes,
            waits,
        })
    }

    /// Whether the step may be placed now. A look may. An item may where its slot has the version that it found, and it
    /// leaves the word or nothing is pending in that interval.
    fn is_ready(&self, step: &MergeStep) -> bool
        requires { InSlots (length self.now.changes.items) step.now }
        ensures { result ≡ is_ready self.now.changes.items self.now.waits step.now }
    {
        match step {
            MergeStep::TurnLook => true,
            MergeStep::Item(item) => {
                let gap = interval_of(item);
                self.changes[gap.slot as usize] == gap.version
                    && (leaves(&item.entry) || waiting(&self.waits, gap) == 0)
            }
        }
    }

    /// Whether the lane at `index` has a next step, and it may be placed now.
    fn is_ready_at(&self, _setup: &Setup, lanes: &[CountedLane], index: usize) -> bool
        ghost seen: { List Entry }
        requires merging { IsMerging (merge_run _setup.now seen) lanes.now self.now.placed.items self.now.cursors.items self.now.changes.items self.now.waits }
        requires low { index < length lanes.now }
        ensures ready { result ≡ true → IsReadyAt lanes.now self.now.placed.items self.now.cursors.items index }
        ensures unready { result ≡ false → CannotGoAt lanes.now self.now.placed.items self.now.cursors.items index }
    {
        match next_from(&self.cursors[index], lanes, index) {
            Some(next) => self.is_ready(&next.step),
            None => false,
        }
    }

    /// The index of the lane of the lowest CPU whose next step may be placed now, if there is one.
    fn ready_lane(&self, setup: &Setup, lanes: &[CountedLane]) -> Option<usize>
        ghost seen: { List Entry }
        requires { IsMerging (merge_run setup.now seen) lanes.now self.now.placed.items self.now.cursors.items self.now.changes.items self.now.waits }
        ensures { MatchOption result (NoneReady lanes.now self.now.placed.items self.now.cursors.items) (IsLowestReady lanes.now self.now.placed.items self.now.cursors.items) }
    {
        let mut lowest = None;
        for place in 0..lanes.len() {
            if is_lower(lanes, place, lowest) && self.is_ready_at(setup, lanes, place) {
                lowest = Some(place);
            }
        }
        lowest
    }

    /// Places the next step of the lane at `index`, which is the lowest ready one, and releases what was pending for it.
    fn place(
        &mut self,
        setup: &Setup,
        lanes: &[CountedLane],
        index: usize,
    ) -> Result<(), AllocError>
        ghost seen: { List Entry }
        requires merging { IsMerging (merge_run setup.now seen) lanes.now self.old.placed.items self.old.cursors.items self.old.changes.items self.old.waits }
        requires lowest { IsLowestReady lanes.now self.old.placed.items self.old.cursors.items index }
        ensures merging { OnOk result (IsMerging (merge_run setup.now seen) lanes.now self.new.placed.items self.new.cursors.items self.new.changes.items self.new.waits) }
        ensures fewer { OnOk result (steps_left lanes.now self.new.cursors.items < steps_left lanes.now self.old.cursors.items) }
    {
        let Some(next) = next_from(&self.cursors[index], lanes, index) else {
            unreachable!()
        };
        let then = next_from(&next.cursor, lanes, index);
        release_pending(&mut self.waits, &next.step, &then)?;
        let seat = seat_at(lanes, index);
        self.placed
            .push(entry_of(&next.step, seat, switches_of(setup)))?;
        self.cursors[index] = next.cursor;
        count(&mut self.changes, &next.step);
        Ok(())
    }
}

/// Merges the lanes into one legal history. `seen` is the history of which they have parts.
fn merge_lanes(
    alloc: Global,
    setup: &Setup,
    _seat: &CountedSeat,
    lanes: &[CountedLane],
) -> Result<Vec<Entry>, AllocError>
    ghost seen: { List Entry }
    requires { CanMerge setup.now seen lanes.now }
    ensures merged { IfOk result (λ merged. IsMergeOf setup.now seen lanes.now merged.items) }
    ensures order { IfOk result (λ merged. AtEach (IsOfLowest lanes.now) merged.items) }
{
    let mut merging = Merging::new(alloc, setup, lanes)?;
    while let Some(place) = merging.ready_lane(setup, lanes) {
        merging.place(setup, lanes, place)?;
    }
    Ok(merging.placed)
}

/// Merges the lanes, which have parts of what the seat has seen, into one legal history: at each place of it the lowest
/// CPU that may place its next entry there has placed it. The one error is want of memory.
pub fn merge(
    alloc: Global,
    setup: &Setup,
    _seat: &CountedSeat,
    lanes: &[CountedLane],
) -> Result<Vec<Entry>, AllocError>
    requires { CanMerge setup.now _seat.now.seat.part.seen lanes.now }
    ensures merged { IfOk result (λ merged. IsMergeOf setup.now _seat.now.seat.part.seen lanes.now merged.items) }
    ensures order { IfOk result (λ merged. AtEach (IsOfLowest lanes.now) merged.items) }
{
    merge_lanes(alloc, setup, _seat, lanes)
}
