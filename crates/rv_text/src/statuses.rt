//! The exit statuses, each with what it says of a call.

/// Nothing failed; or what was asked for was printed; or the answer is yes.
pub const CLEAN: u8 = 0;

/// An instance failed; or the answer is no.
pub const FAILURE: u8 = 1;

/// The words, a file or a command of a script are refused.
pub const REFUSED: u8 = 2;

/// A file is missing, or a read failed.
pub const UNREAD: u8 = 3;

/// A put failed.
pub const UNWRITTEN: u8 = 4;

/// Memory ran out.
pub const NO_MEMORY: u8 = 5;

/// Nothing failed, and an instance was stopped.
pub const STOPPED_SOME: u8 = 6;
