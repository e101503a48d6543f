//! Why a list, a case or an example cannot be run.

use rv_io::ReadError;
use std::alloc::{AllocError, AllocFailed};
use std::io;
use std::str::Utf8Error;

/// All faults are alike: what has one differs.
#[derive(Clone, Copy, Debug, Drop)]
pub(crate) struct CaseFault;

impl From<AllocError> for CaseFault {
    fn from(_error: AllocError) -> CaseFault {
        CaseFault
    }
}

impl<T: Drop> From<AllocFailed<T>> for CaseFault {
    fn from(_error: AllocFailed<T>) -> CaseFault {
        CaseFault
    }
}

impl From<ReadError> for CaseFault {
    fn from(_error: ReadError) -> CaseFault {
        CaseFault
    }
}

impl From<io::Error> for CaseFault {
    fn from(_error: io::Error) -> CaseFault {
        CaseFault
    }
}

impl From<Utf8Error> for CaseFault {
    fn from(_error: Utf8Error) -> CaseFault {
        CaseFault
    }
}
