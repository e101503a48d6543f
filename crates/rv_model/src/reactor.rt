//! What is done about a failure (Linux, Documentation/trace/rv, "Reactors").
ghost use Rattle.std.specs.Prelude.{◌≡◌, ◌↔◌, Some, find, bytes_eq, option_copied};
ghost use Rattle.rv_model.specs.declared.reactor.Reactor.{Reactor};
ghost use Rattle.rv_model.specs.Reactors.{reactor_name, reactor_named, reaction_front, is_panic};

/// Chosen for each monitor.
#[derive(Clone, Copy, Debug, Drop, PartialEq, Eq)]
pub enum Reactor {
    /// Nothing is printed.
    Nop,
    /// A line is printed.
    Printk,
    /// A line is printed, and the run is halted.
    Panic,
}

impl Reactor {
    /// In the order of the control files.
    pub const ALL: [Reactor; 3] = [Reactor::Nop, Reactor::Panic, Reactor::Printk];

    /// The kernel's name.
    pub fn name(self) -> &'static [u8]
        ensures { result.now ≡ reactor_name self }
    {
        match self {
            Reactor::Nop => b"nop",
            Reactor::Printk => b"printk",
            Reactor::Panic => b"panic",
        }
    }

    /// What its line begins with, where it prints one.
    pub fn front(self) -> Option<&'static [u8]>
        ensures { option_copied result ≡ reaction_front self }
    {
        match self {
            Reactor::Nop => None,
            Reactor::Printk => Some(b"rv: "),
            Reactor::Panic => Some(b"rv: panic: "),
        }
    }

    /// Whether it halts the run.
    pub fn is_panic(self) -> bool
        ensures { result ≡ is_panic self }
    {
        matches!(self, Reactor::Panic)
    }

    /// The reactor of this name.
    pub fn from_name(name: &[u8]) -> Option<Reactor>
        ensures value { result ≡ reactor_named name.now }
        ensures each { (reactor : Reactor) → (result ≡ Some reactor) ↔ (name.now ≡ reactor_name reactor) }
    {
        named(&Reactor::ALL, name).copied()
    }
}

/// The first of the reactors that has this name.
fn named<'a>(reactors: &'a [Reactor], name: &[u8]) -> Option<&'a Reactor>
    ensures { option_copied result ≡ find (λ reactor. bytes_eq (reactor_name reactor) name.now) reactors.now }
{
    reactors.iter().find(|reactor| reactor.name() == name)
}
