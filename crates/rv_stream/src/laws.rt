//! A law of how a trace may be refused, the contract of a call that does nothing.
ghost use Rattle.std.specs.Prelude.{ℕ, List};
ghost use Rattle.rv_bind.specs.Outcomes.{Outcome, IsRefusedBy};
ghost use Rattle.rv_bind.specs.Possible.{MayRead};
ghost use Rattle.rv_bind.specs.Values.{BoundValue};
ghost use Rattle.rv_route.specs.Routing.{RoutedValue};
ghost use Rattle.rv_stream.specs.Numbers.{IsRoutedNumber};
ghost use Rattle.rv_stream.specs.RoutedTraces.{routed_text};

/// A trace is refused by the numbers of its lines and of its routing, on any store.
pub fn traces_have_numbers()
    ensures { (trace : List ℕ) → (bound : BoundValue) → (o : Outcome RoutedValue) → MayRead trace (routed_text trace bound) o → IsRefusedBy IsRoutedNumber o }
{}
