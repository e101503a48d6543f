//! Why a part of a text could not be read, before a number says so.
ghost use Rattle.std.specs.Prelude.{◌≡◌};
ghost use Rattle.rv_text.specs.declared.unread.Unread.TheVariants.{Memory};

use std::alloc::{AllocError, AllocFailed};

/// Why a part of a text could not be read.
#[derive(Debug, Drop)]
pub enum Unread {
    /// Memory ran out.
    Memory,
    /// The text is not of the grammar, or past one of its limits.
    Syntax,
}

impl From<AllocError> for Unread {
    ghost from_gives = { λ _ unread. unread ≡ Memory };

    fn from(_error: AllocError) -> Unread {
        Unread::Memory
    }
}

impl<T: Drop> From<AllocFailed<T>> for Unread {
    ghost from_gives = { λ _ unread. unread ≡ Memory };

    fn from(_error: AllocFailed<T>) -> Unread {
        Unread::Memory
    }
}
