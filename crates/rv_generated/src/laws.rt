//! A law of the generated input, the contract of a call that does nothing.
ghost use Rattle.rv_generated.specs.Accepted.{TraceIsAccepted};

/// The generated trace is accepted under the generated bindings, and no two CPUs have deliveries for one slot of it.
pub fn generated_traces_are_accepted()
    ensures { TraceIsAccepted }
{}
