//! What the lanes put into the merged history, one step after another.
ghost use Rattle.std.specs.Prelude.{◌≡◌, [], MatchOption};
ghost use Rattle.rv_journal.specs.MergeSteps.{slot_in, leaves};
ghost use Rattle.rv_journal.specs.inner.MergeSteps.{rest_of, IsCursor, GoesTo, step_entry};
ghost use Rattle.rv_journal.specs.inner.MergePending.{interval_in, lost_interval};

use crate::counted::Counted;
use crate::lane::{CountedLane, turn_at, turn_count};
use crate::observed::{item_at, item_count};
use rv_model::{Act, Entry};

/// One step of a lane: what it puts into the merged history at once.
#[derive(Clone, Copy, Drop)]
pub enum MergeStep {
    /// The look with which a turn opens.
    TurnLook,
    /// A delivery, or the Stop in its place, as it was observed.
    Item(Counted),
}

/// How far a lane has come in a merge.
#[derive(Clone, Copy, Drop)]
pub struct LaneProgress {
    /// How many of its turns are open.
    pub turns: usize,
    /// How many of its items are placed.
    pub items: usize,
}

/// A lane's next step, and how far the lane has come with it.
#[derive(Clone, Copy, Drop)]
pub struct NextStep {
    pub step: MergeStep,
    pub cursor: LaneProgress,
}

/// A stretch of a slot's history, in which the slot has one version.
#[derive(Clone, Copy, Drop, PartialEq, Eq, Hash)]
pub struct VersionInterval {
    pub slot: u32,
    /// How many entries changed the slot's word before.
    pub version: u64,
}

impl LaneProgress {
    /// The lane's next step, if one is left: the look of a turn where one begins here, and else the next item.
    pub fn next(&self, lane: &CountedLane) -> Option<NextStep>
        requires { IsCursor lane.now self.now }
        ensures { MatchOption result (rest_of lane.now self.now ≡ []) (λ next. GoesTo lane.now self.now next.step next.cursor) }
    {
        if self.turns < turn_count(lane) {
            if turn_at(lane, self.turns).from as usize == self.items {
                return Some(NextStep {
                    step: MergeStep::TurnLook,
                    cursor: LaneProgress {
                        turns: self.turns + 1,
                        items: self.items,
                    },
                });
            }
        }
        if self.items >= item_count(lane) {
            return None;
        }
        Some(NextStep {
            step: MergeStep::Item(item_at(lane, self.items)),
            cursor: LaneProgress {
                turns: self.turns,
                items: self.items + 1,
            },
        })
    }
}

/// The slot that an act is on, and 0 for an act on the switches.
pub fn slot_of(act: &Act) -> u32
    ensures { result ≡ slot_in act.now }
{
    match *act {
        Act::Deliver { slot, .. } => slot,
        Act::Stop { slot } => slot,
        Act::Clear { slot } => slot,
        Act::End { slot } => slot,
        Act::Look | Act::Raise { .. } | Act::Lower { .. } => 0,
    }
}

/// The interval in which the item's entry found its slot. Where it found the word 0, a Stop came before, which no count
/// has.
pub fn interval_of(item: &Counted) -> VersionInterval
    ensures { result ≡ interval_in item.now }
{
    let stopped = if item.entry.before == 0 { 1 } else { 0 };
    VersionInterval {
        slot: slot_of(&item.entry.act),
        version: item.count as u64 + stopped,
    }
}

/// For a Stop the interval of its first load, in which it is pending until it is its lane's next step.
pub fn lost_from(item: &Counted) -> Option<VersionInterval>
    ensures { result ≡ lost_interval item.now.entry.act item.now.first }
{
    match item.entry.act {
        Act::Stop { slot } => Some(VersionInterval {
            slot,
            version: item.first as u64,
        }),
        _ => None,
    }
}

/// Whether the entry left its word as it was.
pub fn leaves(entry: &Entry) -> bool
    ensures { result ≡ leaves entry.now }
{
    entry.before == entry.after
}

/// The entry of a step: an item's own, or the look of a turn, which finds the switches.
pub fn entry_of(step: &MergeStep, seat: u32, switches: u64) -> Entry
    ensures { result ≡ step_entry seat switches step.now }
{
    match step {
        MergeStep::TurnLook => Entry {
            seat,
            act: Act::Look,
            before: switches,
            after: switches,
        },
        MergeStep::Item(item) => item.entry,
    }
}
