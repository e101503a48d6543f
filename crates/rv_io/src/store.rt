//! What gives files by their names.
ghost use Rattle.std.specs.Prelude.{◌≡◌, ℕ, Option};
ghost use Rattle.rv_io.specs.Files.{Files, Reads, ReadsShort};
ghost use Rattle.rv_io.specs.Pieces.{ReadsPiece};

use std::alloc::Global;
use thiserror::Error;

/// The most bytes that one read gives: one more than the longest trace has, so that a longer one
/// is seen to be too long.
pub const READ_LIMIT: usize = 134_217_729;

#[derive(Clone, Copy, Debug, Drop, Error, PartialEq, Eq)]
pub enum ReadError {
    /// There is no file of the name. A store that tells its files counts no fault then.
    #[error("there is no such file")]
    NoFile,
    /// The read failed, and was counted as a fault.
    #[error("the read failed")]
    Failed,
    #[error("out of memory")]
    Memory,
}

pub trait Store {
    /// The bytes of each name that there is, where the store tells them.
    ghost files: { Self → Option Files };

    /// How many faults there were: each failed call is one more. The count stands still at the last value of a `u64`.
    ghost faults: { Self → ℕ };

    /// A file's bytes, cut after `READ_LIMIT` of them.
    fn read(&mut self, alloc: Global, name: &str) -> Result<Vec<u8>, ReadError>
        ensures kept { files self.new ≡ files self.old }
        ensures read { Reads (files self.old) name.now (faults self.old) (faults self.new) result };

    /// The same for one who looks no further than one byte past `most`: only up to that byte are they as `read` gives
    /// them.
    fn read_short(&mut self, alloc: Global, name: &str, most: usize) -> Result<Vec<u8>, ReadError>
        ensures kept { files self.new ≡ files self.old }
        ensures read { ReadsShort most (files self.old) name.now (faults self.old) (faults self.new) result }
    {
        let _ = most;
        self.read(alloc, name)
    }

    /// Puts the bytes of a file from a place on into the front of `into`, as many as come at once, and answers how
    /// many. Only where there is no room, or no byte from that place on, there are none.
    fn piece(
        &mut self,
        alloc: Global,
        name: &str,
        from: u64,
        into: &mut [u8],
    ) -> Result<usize, ReadError>
        ensures kept { files self.new ≡ files self.old }
        ensures piece { ReadsPiece (files self.old) name.now from into.old into.new (faults self.old) (faults self.new) result };
}
