//! What one seat played in a history, and its turns.
ghost use Rattle.std.specs.Prelude.{◌≡◌, ◌↔◌, IsTrue, ◌≤◌, ◌<◌, List, length, take, drop, reverse, filter, slice_range, All, IfOk};
ghost use Rattle.rv_model.specs.Records.{is_look, is_delivery, until_look, from_look};
ghost use Rattle.rv_model.specs.Scripts.{played, is_enabled_by};
ghost use Rattle.rv_reference.specs.Plans.{setup_of, ByJudges, HasSlots};

use crate::bits::has_bit;
use crate::plan::Plan;
use rv_model::{Act, Answer, Delivery, Entry};
use std::alloc::{AllocError, Global};

impl Plan {
    /// Whether each slot that the history's acts are on is one of a monitor.
    pub fn has_slots(&self, history: &[Entry]) -> bool
        ensures { IsTrue result ↔ HasSlots self.now history.now }
    {
        history.iter().all(|entry| self.has_slot_of(entry.act))
    }

    /// The entries of the seat with their answers, in order.
    pub fn played(
        &self,
        alloc: Global,
        seat: u32,
        history: &[Entry],
    ) -> Result<Vec<(Entry, Answer)>, AllocError>
        requires { HasSlots self.now history.now }
        ensures { IfOk result (λ script. ByJudges self.now (λ js. script.items ≡ played (setup_of self.now) js seat (reverse history.now))) }
    {
        match history {
            [] => Ok(Vec::new(alloc)),
            [before @ .., entry] => {
                let mut script = self.played(alloc, seat, before)?;
                if entry.seat == seat {
                    let answer = self.answer_at(alloc, before, *entry)?;
                    script.push((*entry, answer))?;
                }
                Ok(script)
            }
        }
    }
}

/// Where the script's first look stands, or its end.
pub fn look_place(script: &[(Entry, Answer)]) -> usize
    ensures bound { result ≤ length script.now }
    ensures until { take result script.now ≡ until_look script.now }
    ensures from { drop result script.now ≡ from_look script.now }
{
    match script {
        [] => 0,
        [first, rest @ ..] => {
            if is_look(first) {
                0
            } else {
                1 + look_place(rest)
            }
        }
    }
}

fn is_look(played: &(Entry, Answer)) -> bool
    ensures { result ≡ is_look played.now }
{
    match played.0.act {
        Act::Look => true,
        _ => false,
    }
}

fn is_delivery(played: &(Entry, Answer)) -> bool
    ensures { result ≡ is_delivery played.now }
{
    match played.0.act {
        Act::Deliver { slot: _, hit: _ } | Act::Stop { slot: _ } | Act::End { slot: _ } => true,
        _ => false,
    }
}

/// The deliveries, stops and ends of a script.
pub fn made_in(
    alloc: Global,
    script: &[(Entry, Answer)],
) -> Result<Vec<(Entry, Answer)>, AllocError>
    ensures { IfOk result (λ made. made.items ≡ filter is_delivery script.now) }
{
    let mut made = Vec::new(alloc);
    for played in script {
        if is_delivery(played) {
            made.push(*played)?;
        }
    }
    Ok(made)
}

/// Whether the look shows the delivery on.
fn is_enabled_by(look: u64, delivery: &Delivery) -> bool
    ensures { result ≡ is_enabled_by look delivery.now }
{
    has_bit(look, 32) && has_bit(look, delivery.monitor as u64)
}

/// The deliveries that the look shows on.
pub fn enabled_in(
    alloc: Global,
    look: u64,
    deliveries: &[Delivery],
) -> Result<Vec<Delivery>, AllocError>
    ensures { IfOk result (λ shown. shown.items ≡ filter (is_enabled_by look) deliveries.now) }
{
    let mut shown = Vec::new(alloc);
    for delivery in deliveries {
        if is_enabled_by(look, delivery) {
            shown.push(*delivery)?;
        }
    }
    Ok(shown)
}

/// The deliveries `from` to `to`, without the last, as far as there are any.
pub fn part_of(deliveries: &[Delivery], from: u32, to: u32) -> &[Delivery]
    ensures { result.now ≡ slice_range deliveries.now from to }
{
    let from = from as usize;
    let to = to as usize;
    if from >= to {
        &[]
    } else if from >= deliveries.len() {
        &[]
    } else if to >= deliveries.len() {
        &deliveries[from..]
    } else {
        &deliveries[from..to]
    }
}
