//! How a specification is written.
ghost use Rattle.std.specs.Prelude.{◌≡◌, ◌↔◌, Some};
ghost use Rattle.rv_model.specs.declared.kind.SpecKind.{SpecKind};
ghost use Rattle.rv_model.specs.Words.{spec_kind, kind_name, kind_named};

use crate::formula::Spec;

/// An automaton or a rule.
#[derive(Clone, Copy, Debug, Drop, PartialEq, Eq)]
pub enum SpecKind {
    /// An automaton.
    Da,
    /// A rule of linear temporal logic.
    Ltl,
}

impl SpecKind {
    /// Both.
    pub const ALL: [SpecKind; 2] = [SpecKind::Da, SpecKind::Ltl];

    /// The kind of this specification.
    pub fn of(spec: &Spec) -> SpecKind
        ensures { result ≡ spec_kind spec.now }
    {
        match spec {
            Spec::Da(_) => SpecKind::Da,
            Spec::Ltl(_) => SpecKind::Ltl,
        }
    }

    /// As it is written.
    pub fn name(self) -> &'static [u8]
        ensures { result.now ≡ kind_name self }
    {
        match self {
            SpecKind::Da => b"da",
            SpecKind::Ltl => b"ltl",
        }
    }

    /// The kind that is written so.
    pub fn from_name(name: &[u8]) -> Option<SpecKind>
        ensures value { result ≡ kind_named name.now }
        ensures each { (kind : SpecKind) → (result ≡ Some kind) ↔ (name.now ≡ kind_name kind) }
    {
        SpecKind::ALL.into_iter().find(|kind| kind.name() == name)
    }
}
