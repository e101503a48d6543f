//! The bits of a number, which is a set of switches, rows, atoms or monitors.
ghost use Rattle.std.specs.Prelude.{◌≡◌};
ghost use Rattle.rv_model.specs.Numbers.{has_bit};

/// Whether the number has this bit. None is past the 64th.
#[inline]
pub fn has_bit(number: u64, bit: usize) -> bool
    ensures { result ≡ has_bit number bit }
{
    bit < 64 && (number >> bit) & 1 == 1
}
