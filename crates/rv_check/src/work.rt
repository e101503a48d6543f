//! What one CPU has to do, place by place.
ghost use Rattle.std.specs.Prelude.{◌≡◌, ◌≢◌, ◌+◌, ◌^◌, ◌<◌, ◌≤◌, ℕ, length, slice_index_or, IfSome, IfNone};
ghost use Rattle.rv_model.specs.declared.work.Delivery.{Delivery};
ghost use Rattle.rv_model.specs.declared.work.Turn.{Turn};
ghost use Rattle.rv_model.specs.Works.{Work};

use rv_model::{CpuWork, Delivery, Turn};

fn seat_of(work: &CpuWork) -> u32
    ensures { result ≡ 2 + work.now.cpu }
{
    2 + work.cpu as u32
}

/// The place of the work of this seat's CPU.
pub fn work_of(works: &[CpuWork], seat: u32) -> Option<usize>
    ensures some { IfSome result (λ k. k < length works.now) }
    ensures seat { IfSome result (λ k. (d : Work) → 2 + (slice_index_or works.now k d).cpu ≡ seat) }
    ensures none { IfNone result ((k : ℕ) (d : Work) → k < length works.now → 2 + (slice_index_or works.now k d).cpu ≢ seat) }
{
    for place in 0..works.len() {
        if seat_of(&works[place]) == seat {
            return Some(place);
        }
    }
    None
}

pub fn delivery_at(work: &CpuWork, place: u32) -> Delivery
    requires { place < length work.now.deliveries }
    ensures { (d : Delivery) → result ≡ slice_index_or work.now.deliveries place d }
{
    work.deliveries[place as usize]
}

pub fn turn_count(work: &CpuWork) -> usize
    ensures { result ≡ length work.now.turns }
{
    work.turns.len()
}

/// The turn at this place, whose deliveries are among the work's.
pub fn turn_at(work: &CpuWork, place: usize) -> Turn
    requires { place < length work.now.turns }
    ensures turn { (t : Turn) → result ≡ slice_index_or work.now.turns place t }
    ensures in_list { result.to ≤ length work.now.deliveries }
    ensures few { length work.now.turns < 2 ^ 63 }
{
    work.turns[place]
}
