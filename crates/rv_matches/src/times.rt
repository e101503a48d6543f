//! Timestamps as decimal numbers, which are compared digit by digit.
ghost use Rattle.std.specs.Prelude.{◌≡◌, ◌≤◌, ◌<◌, ◌*◌, length, nat_lt, true};
ghost use Rattle.rv_text.specs.Decimal.{all_digits};
ghost use Rattle.rv_matches.specs.Times.{digits_in, is_time, point_in, time_of};
ghost use Rattle.rv_matches.specs.inner.Times.{digit_at};

use crate::words::LONGEST;
use rv_text::{ByteClass, run_end};

/// Where the digits before the point end.
fn point_in(stamp: &[u8]) -> usize
    ensures value { result ≡ point_in stamp.now }
    ensures high { result ≤ length stamp.now }
{
    run_end(ByteClass::Digit, stamp, 0)
}

/// Whether all but the point are digits.
fn has_digits(stamp: &[u8]) -> bool
    ensures { result ≡ all_digits (digits_in stamp.now) }
{
    let point = point_in(stamp);
    if point == stamp.len() {
        return true;
    }
    run_end(ByteClass::Digit, stamp, point + 1) == stamp.len()
}

/// Whether the timestamp is one that can be compared.
pub(crate) fn is_time(stamp: &[u8]) -> bool
    ensures { result ≡ is_time stamp.now }
{
    stamp.len() <= LONGEST && has_digits(stamp)
}

/// The digit at one of so many places before the point and as many behind it.
fn digit_at(stamp: &[u8], point: usize, place: usize) -> u8
    requires time { is_time stamp.now ≡ true }
    requires point { point ≡ point_in stamp.now }
    requires place { place < 2 * LONGEST }
    ensures { result ≡ digit_at stamp.now place }
{
    if point + place < LONGEST {
        return 0;
    }
    let digit = point + place - LONGEST;
    let at = if digit < point { digit } else { digit + 1 };
    if at < stamp.len() {
        stamp[at] - b'0'
    } else {
        0
    }
}

/// Whether the one time is before the other. Both have zeros before the first place that is looked at, and behind the last.
pub(crate) fn is_before(one: &[u8], other: &[u8]) -> bool
    requires one { is_time one.now ≡ true }
    requires other { is_time other.now ≡ true }
    ensures { result ≡ nat_lt (time_of one.now) (time_of other.now) }
{
    if one == other {
        return false;
    }
    let point = point_in(one);
    let its = point_in(other);
    let first = LONGEST - point.max(its);
    let last = LONGEST + (one.len() - point).max(other.len() - its);
    for place in first..last {
        let digit = digit_at(one, point, place);
        let against = digit_at(other, its, place);
        if digit != against {
            return digit < against;
        }
    }
    false
}
