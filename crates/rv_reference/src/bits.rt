//! Bits of numbers.
ghost use Rattle.std.specs.Prelude.{◌≡◌};
ghost use Rattle.rv_model.specs.Numbers.{has_bit};

/// Whether the number has the bit.
pub fn has_bit(number: u64, bit: u64) -> bool
    ensures { result ≡ has_bit number bit }
{
    bit < 64 && (number >> bit) & 1 == 1
}
