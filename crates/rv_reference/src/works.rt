//! The work of one CPU from its parts, for tests.
ghost use Rattle.std.specs.Prelude.{◌≡◌, ◌↔◌, ◌+◌, length, IfOk, IfSome, IsTrue};
ghost use Rattle.rv_model.specs.Works.{NamesEach};

use rv_model::{CpuWork, Delivery, Turn};
use std::alloc::{AllocError, Global};

/// Whether from this place on the turns name the deliveries in order, each once.
pub fn names_each(place: u32, turns: &[Turn], count: u32) -> bool
    ensures { IsTrue result ↔ NamesEach place turns.now count }
{
    match turns {
        [] => place == count,
        [turn, others @ ..] => turn.from == place
            && turn.from <= turn.to
            && names_each(turn.to, others, count),
    }
}

/// The work with these turns and deliveries.
pub fn work(
    alloc: Global,
    cpu: u8,
    turns: &[Turn],
    deliveries: &[Delivery],
) -> Result<CpuWork, AllocError>
    requires { NamesEach 0 turns.now (length deliveries.now) }
    ensures { IfOk result (λ work. work ≡ record { cpu = cpu; turns = turns.now; deliveries = deliveries.now }) }
{
    let turns = Vec::from_slice(alloc, turns)?;
    let deliveries = Vec::from_slice(alloc, deliveries)?;
    Ok(CpuWork {
        cpu,
        turns,
        deliveries,
    })
}
