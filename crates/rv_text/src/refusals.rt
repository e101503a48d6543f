//! Refusals, and why a reader that takes memory has no value.
ghost use Rattle.std.specs.Prelude.{◌≡◌};
ghost use Rattle.rv_text.specs.declared.refusals.Refused.TheVariants.{Memory, Because};

use std::alloc::{AllocError, AllocFailed};
use thiserror::Error;

/// An input that is not accepted.
#[derive(Clone, Copy, Debug, Drop, PartialEq, Eq, Error)]
#[error("refusal {number} at line {line}")]
pub struct Refusal {
    /// One of the numbers of this crate.
    pub number: u8,
    /// The line that it names, counted from 1, or 0.
    pub line: u32,
}

impl Refusal {
    /// A refusal that names no line.
    #[inline(always)]
    pub fn whole(number: u8) -> Refusal
        ensures { result ≡ record { number = number; line = 0 } }
    {
        Refusal { number, line: 0 }
    }

    /// A refusal that names its line.
    #[inline(always)]
    pub fn at(number: u8, line: u32) -> Refusal
        ensures { result ≡ record { number = number; line = line } }
    {
        Refusal { number, line }
    }
}

/// Why a reader that takes memory has no value.
#[derive(Clone, Copy, Debug, Drop, PartialEq, Eq, Error)]
pub enum Refused {
    /// The input is not accepted.
    #[error("{0}")]
    Because(Refusal),
    /// Memory ran out.
    #[error("out of memory")]
    Memory,
}

impl From<Refusal> for Refused {
    ghost from_gives = { λ refusal refused. refused ≡ Because refusal };

    fn from(refusal: Refusal) -> Refused {
        Refused::Because(refusal)
    }
}

impl From<AllocError> for Refused {
    ghost from_gives = { λ _ refused. refused ≡ Memory };

    fn from(_error: AllocError) -> Refused {
        Refused::Memory
    }
}

impl<T: Drop> From<AllocFailed<T>> for Refused {
    ghost from_gives = { λ _ refused. refused ≡ Memory };

    fn from(_error: AllocFailed<T>) -> Refused {
        Refused::Memory
    }
}
