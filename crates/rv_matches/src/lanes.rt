//! Sixteen bytes that are looked at together.
ghost use Rattle.std.specs.Prelude.{◌≡◌, ◌≢◌, ◌≤◌, ◌<◌, ℕ, length};
ghost use Rattle.std.specs.Int.{bit_at};
ghost use Rattle.rv_trace.specs.Masks.{IsPairRun};
ghost use Rattle.rv_matches.specs.inner.Lanes.{is_alike};

use rv_trace::{WIDTH, first_set};
use std::simd::prelude::*;

/// The highest bit that is set.
#[inline(always)]
pub(crate) fn highest(mask: u64) -> usize
    requires { mask ≢ 0 }
    ensures bound { result < 64 }
    ensures set { bit_at mask result ≡ 1 }
    ensures above { (k : ℕ) → result < k → bit_at mask k ≡ 0 }
{
    63 - mask.leading_zeros() as usize
}

/// How many bytes are the same or both digits and no blanks, from the first on.
#[inline(always)]
pub(crate) fn alike_in(one: &[u8], other: &[u8]) -> usize
    requires one { WIDTH ≤ length one.now }
    requires other { WIDTH ≤ length other.now }
    ensures { IsPairRun is_alike one.now other.now WIDTH result }
{
    let a = u8x16::from_slice(one);
    let b = u8x16::from_slice(other);
    let others = a.simd_lt(u8x16::splat(b'0')) | a.simd_gt(u8x16::splat(b'9'));
    let more = b.simd_lt(u8x16::splat(b'0')) | b.simd_gt(u8x16::splat(b'9'));
    let stops = a.simd_ne(b) & (others | more) | b.simd_lt(u8x16::splat(b'.'));
    first_set(stops.to_bitmask())
}
