//! Short timestamps as numbers, which are compared at once.
ghost use Rattle.std.specs.Prelude.{◌≡◌, ◌≤◌, ◌<◌, ◌^◌, length, map, nat_lt, true, IfSome};
ghost use Rattle.std.specs.Int.Digits.{number_from_digits_after};
ghost use Rattle.rv_text.specs.Decimal.{digit_of};
ghost use Rattle.rv_text.specs.Places.{between, run_end};
ghost use Rattle.rv_text.specs.declared.runs.ByteClass.TheVariants as kinds;
ghost use Rattle.rv_matches.specs.Times.{is_time, time_of};
ghost use Rattle.rv_matches.specs.inner.ShortTimes.{IsShortTime};

use crate::times::{is_before, is_time};
use rv_text::ByteClass;

/// The most bytes of a timestamp that is read as a number: so many digits fit.
pub(crate) const SHORT: usize = 19;

/// A timestamp that can be compared, as a number.
#[derive(Clone, Copy, Drop)]
pub(crate) struct ShortTime {
    /// What its digits spell without the point.
    number: u64,
    /// How many of them stand behind the point.
    decimals: usize,
}

/// Digits of a timestamp: where they end, and the number that they spell with those before them.
#[derive(Clone, Copy, Drop)]
struct SpelledDigits {
    end: usize,
    number: u64,
}

/// The digits from a place on, where a number was spelled before.
#[inline(always)]
fn digits_from(stamp: &[u8], from: usize, before: u64) -> SpelledDigits
    requires short { length stamp.now ≤ SHORT }
    requires from { from ≤ length stamp.now }
    requires small { before < 10 ^ from }
    ensures end { result.end ≡ run_end kinds.Digit stamp.now from }
    ensures number { result.number ≡ number_from_digits_after 10 before (map digit_of (between stamp.now from result.end)) }
    ensures small { result.number < 10 ^ result.end }
{
    let mut end = from;
    let mut number = before;
    while end < stamp.len() && ByteClass::Digit.has(stamp[end]) {
        number = number * 10 + (stamp[end] - b'0') as u64;
        end += 1;
    }
    SpelledDigits { end, number }
}

/// The timestamp as a number, if it is short and can be compared.
#[inline(always)]
pub(crate) fn short_time(stamp: &[u8]) -> Option<ShortTime>
    ensures { IfSome result (IsShortTime stamp.now) }
{
    if stamp.len() > SHORT {
        return None;
    }
    let whole = digits_from(stamp, 0, 0);
    if whole.end == stamp.len() {
        return Some(ShortTime {
            number: whole.number,
            decimals: 0,
        });
    }
    let all = digits_from(stamp, whole.end + 1, whole.number);
    if all.end < stamp.len() {
        return None;
    }
    Some(ShortTime {
        number: all.number,
        decimals: stamp.len() - (whole.end + 1),
    })
}

/// Whether the timestamp can be compared. One that was read as a number can.
#[inline(always)]
pub(crate) fn is_comparable(stamp: &[u8], short: Option<ShortTime>) -> bool
    requires { IfSome short (IsShortTime stamp.now) }
    ensures { result ≡ is_time stamp.now }
{
    if let Some(_) = short {
        return true;
    }
    is_time(stamp)
}

/// Whether the one time is before the other. Short ones with as many decimals are compared as numbers.
#[inline(always)]
pub(crate) fn is_earlier(
    one: &[u8],
    short: Option<ShortTime>,
    other: &[u8],
    its: Option<ShortTime>,
) -> bool
    requires one { is_time one.now ≡ true }
    requires other { is_time other.now ≡ true }
    requires short { IfSome short (IsShortTime one.now) }
    requires its { IfSome its (IsShortTime other.now) }
    ensures { result ≡ nat_lt (time_of one.now) (time_of other.now) }
{
    let Some(time) = short else {
        return is_before(one, other);
    };
    let Some(against) = its else {
        return is_before(one, other);
    };
    if time.decimals != against.decimals {
        return is_before(one, other);
    }
    time.number < against.number
}
