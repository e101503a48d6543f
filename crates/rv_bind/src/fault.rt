//! Why a line, and why a whole file, is not bound.
ghost use Rattle.std.specs.Prelude.{◌≡◌};
ghost use Rattle.rv_bind.specs.declared.fault.LineFault.TheVariants as faults;

use rv_model::Name;
use rv_text::Refusal;
use std::alloc::{AllocError, AllocFailed};
use thiserror::Error;

/// Why files gave no bindings, or no other value that was to be read of them.
#[derive(Debug, Drop, Error)]
pub enum BindFault {
    /// The text of the file is not accepted.
    #[error("{refusal}")]
    Refused { file: Name, refusal: Refusal },
    /// The file is missing, or the store could not read it.
    #[error("a file cannot be read")]
    Unread { file: Name },
    /// Memory ran out, which no contract rules out.
    #[error("out of memory")]
    Memory,
}

/// Why a line is not bound.
#[derive(Clone, Copy, Drop)]
pub(crate) enum LineFault {
    /// The number of the refusal, one of those of `rv_text`.
    Number(u8),
    Memory,
}

impl From<AllocError> for LineFault {
    ghost from_gives = { λ _ fault. fault ≡ faults.Memory };

    fn from(_error: AllocError) -> LineFault {
        LineFault::Memory
    }
}

impl<T: Drop> From<AllocFailed<T>> for LineFault {
    ghost from_gives = { λ _ fault. fault ≡ faults.Memory };

    fn from(_error: AllocFailed<T>) -> LineFault {
        LineFault::Memory
    }
}
