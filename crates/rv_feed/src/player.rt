//! What plays a script: the machine of one thread, or a seat of a board.
ghost use Rattle.std.specs.Prelude.{◌≡◌, ℕ, ◌+◌, ◌<◌, List, length, slice_index};
ghost use Rattle.rv_model.specs.Scripts.{Played};
ghost use Rattle.rv_model.specs.Setups.{Setup, slot_of};
ghost use Rattle.rv_core.specs.Advance.{FitsHit};
ghost use Rattle.rv_core.specs.Deliveries.{FitsDelivery};
ghost use Rattle.rv_core.specs.Setup.{table_at};
ghost use Rattle.rv_feed.specs.Players.{Composes, LooksAt, Serves, Halts};
ghost use Rattle.rv_feed.specs.Turns.{Did};

use rv_board::{Board, Seat};
use rv_core::Core;
use rv_io::Gate;
use rv_model::{Act, Answer, Delivered, Delivery, HALTED, Hit};

/// What plays a CPU's script.
pub trait Player {
    /// What it shares with the players of other CPUs.
    type Shared;

    /// What it began with.
    ghost setup: { Self → Setup };

    /// It is one of those that share this.
    ghost is_of: { Self → Self.Shared → Type 0 };

    /// From the one value to the other the CPU made these entries, which have these answers.
    ghost does: { ℕ → Self → Self → List Played → Type 0 };

    /// The switches.
    fn look(&mut self, shared: &Self::Shared, cpu: u8) -> u64
        requires { is_of self.old shared.now }
        ensures { LooksAt (does cpu) self.old self.new result };

    /// A delivery to its slot, whose instance ends where the hit is an end.
    fn serve<G: Gate>(
        &mut self,
        shared: &Self::Shared,
        cpu: u8,
        delivery: &Delivery,
        gate: &mut G,
    ) -> Delivered
        requires of { is_of self.old shared.now }
        requires fits { FitsDelivery (setup self.old) delivery.now }
        ensures { Serves (does cpu) (setup self.old) self.old self.new delivery.now result };

    /// The halted switch goes on.
    fn halt(&mut self, shared: &Self::Shared, cpu: u8)
        requires { is_of self.old shared.now }
        ensures { Halts (does cpu) self.old self.new };

    /// It keeps what it began with.
    ghost same_setup: { (cpu : ℕ) (a b : Self) (ps : List Played) → does cpu a b ps → setup b ≡ setup a };

    /// It stays one of those.
    ghost still_of: { (cpu : ℕ) (a b : Self) (ps : List Played) → does cpu a b ps → (shared : Self.Shared) → is_of a shared → is_of b shared };

    /// What it did, and then something more, is what it did.
    ghost composes: { (cpu : ℕ) → Composes (does cpu) };
}

/// Serves a delivery with this hit to the instance, as `serve` of a machine does, whatever its order. The hit is lent, and not
/// copied.
#[inline(always)]
pub fn serve_hit(core: &mut Core, cpu: u8, monitor: u8, instance: u32, hit: &Hit) -> Delivered
    requires monitor { monitor < length core.old.setup.shape }
    requires instance { instance < slice_index core.old.setup.shape monitor }
    requires hit { FitsHit (table_at core.old.setup (slot_of core.old.setup.shape monitor instance)) hit.now }
    ensures { (order : ℕ) → Serves (Did (2 + cpu)) core.old.setup core.old core.new (record { order = order; monitor = monitor; instance = instance; hit = hit.now }) result }
{
    let slot = core.shape().slot(monitor, instance);
    let seat = 2 + cpu as u32;
    if hit.mode.is_end() {
        return Delivered::Done(core.step(seat, &Act::End { slot }));
    }
    Delivered::Done(core.deliver(seat, monitor, slot, hit))
}

/// On one thread the machine plays for each CPU, as its seat.
impl Player for Core {
    ghost use Rattle.std.proofs.Common.{ap};
    ghost use Rattle.rv_feed.specs.Turns.{Did};
    ghost use Rattle.rv_feed.specs.inner.Composing.{did-composes};

    type Shared = ();

    ghost setup = { λ core. core.setup };

    ghost is_of = { λ core shared. Unit {0} };

    ghost does = { λ cpu. Did (2 + cpu) };

    #[inline(always)]
    fn look(&mut self, _shared: &(), cpu: u8) -> u64 {
        match self.step(2 + cpu as u32, &Act::Look) {
            Answer::Looked(word) => word,
            _ => unreachable!(),
        }
    }

    #[inline(always)]
    fn serve<G: Gate>(
        &mut self,
        _shared: &(),
        cpu: u8,
        delivery: &Delivery,
        _gate: &mut G,
    ) -> Delivered {
        serve_hit(
            self,
            cpu,
            delivery.monitor,
            delivery.instance,
            &delivery.hit,
        )
    }

    fn halt(&mut self, _shared: &(), cpu: u8) {
        let _answer = self.step(2 + cpu as u32, &Act::Raise { bits: 1 << HALTED });
    }

    ghost same_setup = { λ cpu a b ps did. ap (λ c. c.setup) did.grows };

    ghost still_of = { λ cpu a b ps did shared of. of };

    ghost composes = { λ cpu. did-composes (2 + cpu) };
}

/// At once each CPU has a seat of its own.
impl Player for Seat {
    ghost use Rattle.std.proofs.Common.{ap, ◌∙◌};
    ghost use Rattle.rv_feed.specs.Feeding.{Adds};
    ghost use Rattle.rv_feed.specs.inner.Composing.{adds-composes};

    type Shared = Board;

    ghost setup = { λ seat. seat.board.setup };

    ghost is_of = { λ seat board. seat.board ≡ board };

    ghost does = { λ cpu. Adds };

    fn look(&mut self, board: &Board, _cpu: u8) -> u64 {
        board.look(self)
    }

    fn serve<G: Gate>(
        &mut self,
        board: &Board,
        cpu: u8,
        delivery: &Delivery,
        gate: &mut G,
    ) -> Delivered {
        let slot = board.shape().slot(delivery.monitor, delivery.instance);
        if delivery.hit.mode.is_end() {
            board.end(self, slot);
            return Delivered::Done(Answer::Ended);
        }
        board.deliver(self, cpu as u32, slot, &delivery.hit, gate)
    }

    fn halt(&mut self, board: &Board, _cpu: u8) {
        board.halt(self)
    }

    ghost same_setup = { λ cpu a b ps adds. ap (λ z. z.setup) adds.grows.board };

    ghost still_of = { λ cpu a b ps adds board of. adds.grows.board ∙ of };

    ghost composes = { λ cpu. adds-composes };
}
