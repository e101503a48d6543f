//! Sets of numbers below 32: rows, or atoms.
ghost use Rattle.std.specs.Prelude.{◌≡◌, ◌≢◌, ℕ, ◌<◌, ◌==◌, ◌&&◌, ◌||◌, true, false, not};
ghost use Rattle.rv_model.specs.Numbers.{has_bit};

/// The set with this member.
pub fn with(set: u32, member: u8) -> u32
    requires { member < 32 }
    ensures { (other : ℕ) → other < 32 → has_bit result other ≡ (has_bit set other || (member == other)) }
{
    set | 1 << member
}

/// The set without the members of the other one.
pub fn without(set: u32, others: u32) -> u32
    ensures { (member : ℕ) → member < 32 → has_bit result member ≡ (has_bit set member && not (has_bit others member)) }
{
    set & !others
}

/// The lowest member of a set that has some.
pub fn lowest(set: u32) -> u8
    requires { set ≢ 0 }
    ensures few { result < 32 }
    ensures member { has_bit set result ≡ true }
    ensures below { (other : ℕ) → other < result → has_bit set other ≡ false }
{
    set.trailing_zeros() as u8
}

/// The set without this member.
pub fn without_member(set: u32, member: u8) -> u32
    requires few { member < 32 }
    requires member { has_bit set member ≡ true }
    ensures others { (other : ℕ) → other < 32 → has_bit result other ≡ (has_bit set other && not (member == other)) }
    ensures fewer { result < set }
{
    set & !(1 << member)
}
