//! A script, one entry on.
ghost use Rattle.std.specs.Prelude.{◌≡◌, ◌+◌, ◌<◌, ◌≤◌, ◌&&◌, ℕ, Bool, true, false, All, length, slice_index_or};
ghost use Rattle.rv_model.specs.Numbers.{has_bit};
ghost use Rattle.rv_model.specs.Scripts.{is_enabled_by, fails};
ghost use Rattle.rv_model.specs.declared.entry.Answer.{Answer};
ghost use Rattle.rv_check.specs.declared.next.Next.{Next};
ghost use Rattle.rv_check.specs.declared.next.Next.TheVariants.{Look, Deliver};
ghost use Rattle.rv_core.specs.Deliveries.{FitsDelivery};
ghost use Rattle.rv_check.specs.inner.Nexts.{IsNext, HasPlace, IsDue, IsHalt, ServesDue, Allows, MayEnd, Settles, Moves, CanMove, after_other};

use crate::entries::changes;
use crate::next::{Due, Next};
use crate::work::{delivery_at, turn_at, turn_count};
use rv_core::{Setup, Step};
use rv_model::{
    Act, Answer, CpuWork, Delivery, Entry, HALTED, REACTING, Turn, fails, has_bit, is_enabled_by,
};

/// Three lost tries stop an instance.
const TRIES: u8 = 3;

/// Whether the act raises the halted bit alone.
fn is_halt(act: &Act) -> bool
    ensures yes { result ≡ true → IsHalt act.now }
    ensures no { result ≡ false → ¬ IsHalt act.now }
{
    match *act {
        Act::Raise { bits } => bits == 1 << HALTED,
        _ => false,
    }
}

/// The first delivery from this place on that the look shows on, or what follows the turn.
fn settle(setup: &Setup, work: &CpuWork, look: u64, place: u32, to: u32, turn: usize) -> Next
    requires fit { All (FitsDelivery setup.now) work.now.deliveries }
    requires in_list { to ≤ length work.now.deliveries }
    ensures { Settles setup.now work.now look place to turn result }
{
    for at in place..to {
        let delivery = delivery_at(work, at);
        if is_enabled_by(look, &delivery) {
            let slot = setup.shape.slot(delivery.monitor, delivery.instance);
            return Next::Deliver(Due {
                look,
                place: at,
                to,
                turn,
                slot,
                lost: 0,
            });
        }
    }
    Next::Look(turn)
}

/// Whether the act is the end of the slot where the delivery ends it, and else the delivery, or a stop of its slot that was
/// lost three times.
fn serves(work: &CpuWork, due: &Due, act: &Act) -> bool
    requires { due.now.place < length work.now.deliveries }
    ensures yes { result ≡ true → ServesDue work.now due.now act.now }
    ensures no { result ≡ false → ¬ ServesDue work.now due.now act.now }
{
    let wanted = delivery_at(work, due.place).hit;
    let ends = wanted.mode.is_end();
    match *act {
        Act::Deliver { slot, hit } => !ends && (slot == due.slot && hit == wanted),
        Act::Stop { slot } => !ends && (slot == due.slot && due.lost >= TRIES),
        Act::End { slot } => ends && slot == due.slot,
        _ => false,
    }
}

pub fn allows(work: &CpuWork, next: &Next, act: &Act) -> bool
    requires { HasPlace work.now next.now }
    ensures yes { result ≡ true → Allows work.now next.now act.now }
    ensures no { result ≡ false → ¬ Allows work.now next.now act.now }
{
    match *next {
        Next::Look(turn) => matches!(*act, Act::Look) && turn < turn_count(work),
        Next::Deliver(due) => serves(work, &due, act),
        Next::Raise => is_halt(act),
        Next::Over => false,
    }
}

/// What is next after a look of this word.
fn after_look(setup: &Setup, work: &CpuWork, turn: usize, word: u64) -> Next
    requires fit { All (FitsDelivery setup.now) work.now.deliveries }
    requires turn { turn < length work.now.turns }
    ensures { (panics : ℕ → Bool) (a : Answer) → Moves setup.now panics work.now (Look turn) word a result }
{
    if has_bit(word, HALTED) {
        return Next::Over;
    }
    let Turn { from, to, .. } = turn_at(work, turn);
    settle(setup, work, word, from, to, turn + 1)
}

/// What is next after a delivery with this answer, or after its stop.
fn after_delivery(setup: &Setup, panics: u32, work: &CpuWork, due: &Due, answer: Answer) -> Next
    requires fit { All (FitsDelivery setup.now) work.now.deliveries }
    requires due { IsDue setup.now work.now due.now }
    ensures { (word : ℕ) → Moves setup.now (has_bit panics) work.now (Deliver due.now) word answer result }
{
    let monitor = delivery_at(work, due.place).monitor;
    if fails(answer) && (has_bit(panics as u64, monitor as usize) && has_bit(due.look, REACTING)) {
        return Next::Raise;
    }
    settle(setup, work, due.look, due.place + 1, due.to, due.turn)
}

/// What is next after an act that may be the next one.
pub fn after(setup: &Setup, panics: u32, work: &CpuWork, next: &Next, step: &Step) -> Next
    requires fit { All (FitsDelivery setup.now) work.now.deliveries }
    requires next { IsNext setup.now work.now next.now }
    requires turn { CanMove work.now next.now }
    ensures { Moves setup.now (has_bit panics) work.now next.now step.now.word step.now.answer result }
{
    match *next {
        Next::Look(turn) => after_look(setup, work, turn, step.word),
        Next::Deliver(due) => after_delivery(setup, panics, work, &due, step.answer),
        Next::Raise | Next::Over => Next::Over,
    }
}

/// What is next after an entry of another seat.
fn watch(next: &Next, entry: &Entry) -> Next
    ensures { result ≡ after_other entry.now next.now }
{
    match *next {
        Next::Deliver(due) => {
            let lost = if changes(entry, due.slot) && due.lost < TRIES {
                due.lost + 1
            } else {
                due.lost
            };
            Next::Deliver(Due { lost, ..due })
        }
        other => other,
    }
}

/// What is next for each seat after an entry of another one.
pub fn watch_all(nexts: &mut Vec<Next>, entry: &Entry)
    ensures count { length nexts.new.items ≡ length nexts.old.items }
    ensures watched { (k : ℕ) (d : Next) → k < length nexts.old.items → slice_index_or nexts.new.items k d ≡ after_other entry.now (slice_index_or nexts.old.items k d) }
{
    for place in 0..nexts.len() {
        let next = nexts[place];
        nexts[place] = watch(&next, entry);
    }
}

pub fn may_end(work: &CpuWork, next: &Next) -> bool
    ensures yes { result ≡ true → MayEnd work.now next.now }
    ensures no { result ≡ false → ¬ MayEnd work.now next.now }
{
    match *next {
        Next::Look(turn) => turn_count(work) <= turn,
        Next::Deliver(_) | Next::Raise => false,
        Next::Over => true,
    }
}
