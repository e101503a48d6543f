//! How much a bindings file may hold.
ghost use Rattle.std.specs.Prelude.{◌≡◌};

/// The last byte of a file at which a line may end, its line end included.
pub const TEXT_LIMIT: usize = 1_048_576;

/// The most containers that bindings may have.
pub const MAX_CONTAINERS: usize = 32;

/// The most monitors that bindings may have: the switches have a bit for each.
pub const MAX_MONITORS: usize = 32;

/// The most rules that bindings may have.
pub const MAX_RULES: usize = 256;

/// Every limit of this crate that a definition names.
pub fn limits_are_numerals()
    ensures bytes { TEXT_LIMIT ≡ 1048576 }
    ensures containers { MAX_CONTAINERS ≡ 32 }
    ensures monitors { MAX_MONITORS ≡ 32 }
    ensures rules { MAX_RULES ≡ 256 }
{}
