//! Packs a word and takes it apart.
ghost use Rattle.std.specs.Prelude.{◌≡◌, ◌+◌, ◌*◌, ◌^◌};
ghost use Rattle.rv_word.specs.Words.{packed, set_in, atoms_in};

/// The word of an instance that waits, while all levels are off: its set is row 0 alone.
pub const WAITING: u64 = 1 << 32;

/// The word of an instance that was stopped: no row is left, and no level is kept.
pub const STOPPED: u64 = 0;

/// The word of a set of rows and of levels.
pub fn pack(set: u32, atoms: u32) -> u64
    ensures word { result ≡ packed set atoms }
    ensures set { set_in result ≡ set }
    ensures atoms { atoms_in result ≡ atoms }
    ensures waiting { set ≡ 1 → result ≡ WAITING + atoms }
    ensures stopped { set ≡ 0 → atoms ≡ 0 → result ≡ STOPPED }
{
    ((set as u64) << 32) + atoms as u64
}

/// The word's set of rows.
pub fn set_of(word: u64) -> u32
    ensures set { result ≡ set_in word }
    ensures whole { packed result (atoms_in word) ≡ word }
{
    (word >> 32) as u32
}

/// The word's levels.
pub fn atoms_of(word: u64) -> u32
    ensures atoms { result ≡ atoms_in word }
    ensures whole { packed (set_in word) result ≡ word }
{
    (word & 0xffff_ffff) as u32
}
