//! Timestamps that go back: the latest one so far, and the lines whose time is before it.
ghost use Rattle.std.specs.Prelude.{◌≡◌, ◌≤◌, ◌+◌, [], length, true, Some, None, IfOk, IfSome, OnOk};
ghost use Rattle.std.specs.Option.{option_or};
ghost use Rattle.rv_matches.specs.inner.LateTimes.{HasTime, IfLike, TellsTime, is_late, is_latest, times_of};
ghost use Rattle.rv_matches.specs.LineEvents.{stamp_before};
ghost use Rattle.rv_matches.specs.Times.{is_time};
ghost use Rattle.rv_matches.specs.inner.ShortTimes.{IsShortTime};

use crate::latest_stamp::LatestStamp;
use crate::short_times::{ShortTime, is_earlier, short_time};
use crate::words::one_more;
use rv_model::Name;
use std::alloc::{AllocError, Global};
use std::marker::Model;

/// A timestamp without its colon, and its line.
#[derive(Drop)]
pub struct Stamped {
    pub line: u32,
    pub stamp: Name,
}

/// A line whose time is before that of a line above it.
#[derive(Drop)]
pub struct Late {
    pub late: Stamped,
    /// The first line above it of the latest time.
    pub latest: Option<Stamped>,
}

/// The latest timestamp, the first that is late, and how many are.
#[derive(Drop)]
pub(crate) struct Times {
    latest: LatestStamp,
    first_late: Option<Late>,
    late: u64,
}

impl Model for Times {
    ghost use Rattle.rv_matches.specs.inner.LateTimes.{HasTime, TimesValue};

    ghost Value = { TimesValue };

    ghost view = { λ t. record { latest = t.latest; late = record { first = t.first_late; count = t.late } } };

    ghost invariant = { λ t. HasTime t.latest };
}

/// The timestamp of a line.
fn stamp_at(alloc: Global, line: u32, stamp: &[u8]) -> Result<Stamped, AllocError>
    ensures { IfOk result (λ s. s ≡ record { line = line; stamp = stamp.now }) }
{
    Ok(Stamped {
        line,
        stamp: Name::new(alloc, stamp)?,
    })
}

impl Times {
    /// No timestamp was seen.
    pub(crate) fn new() -> Times
        ensures { result ≡ times_of [] }
    {
        Times {
            latest: LatestStamp::new(),
            first_late: None,
            late: 0,
        }
    }

    /// The latest timestamp.
    fn latest(&self, alloc: Global) -> Result<Option<Stamped>, AllocError>
        ensures { IfOk result (λ copy. copy ≡ self.now.latest) }
    {
        let Some(stamp) = self.latest.stamp() else {
            return Ok(None);
        };
        Ok(Some(stamp_at(alloc, self.latest.line(), stamp)?))
    }

    /// Whether the timestamp of the line becomes the latest.
    fn is_latest(&self, line: u32, stamp: &[u8], short: Option<ShortTime>) -> bool
        requires time { is_time stamp.now ≡ true }
        requires short { IfSome short (IsShortTime stamp.now) }
        ensures { result ≡ is_latest self.now.latest (record { line = line; stamp = stamp.now }) }
    {
        let Some(latest) = self.latest.stamp() else {
            return true;
        };
        is_earlier(latest, short_time(latest), stamp, short)
    }

    /// Whether the timestamp of the line is before the latest.
    fn is_late(&self, line: u32, stamp: &[u8], short: Option<ShortTime>) -> bool
        requires time { is_time stamp.now ≡ true }
        requires short { IfSome short (IsShortTime stamp.now) }
        ensures { result ≡ is_late self.now.latest (record { line = line; stamp = stamp.now }) }
    {
        let Some(latest) = self.latest.stamp() else {
            return false;
        };
        is_earlier(stamp, short, latest, short_time(latest))
    }

    /// One more line that is late.
    fn add_late(&mut self, alloc: Global, line: u32, stamp: &[u8]) -> Result<(), AllocError>
        ensures latest { OnOk result (self.new.latest ≡ self.old.latest) }
        ensures first { OnOk result (self.new.late.first ≡ option_or self.old.late.first (Some (record { late = record { line = line; stamp = stamp.now }; latest = self.old.latest }))) }
        ensures count { OnOk result (self.new.late.count ≡ self.old.late.count + 1) }
    {
        self.late = one_more(self.late)?;
        if self.first_late.is_none() {
            let late = stamp_at(alloc, line, stamp)?;
            let latest = self.latest(alloc)?;
            self.first_late = Some(Late { late, latest });
        }
        Ok(())
    }

    /// One more timestamp.
    pub(crate) fn add(
        &mut self,
        alloc: Global,
        line: u32,
        stamp: &[u8],
        short: Option<ShortTime>,
    ) -> Result<(), AllocError>
        requires time { is_time stamp.now ≡ true }
        requires short { IfSome short (IsShortTime stamp.now) }
        ensures { OnOk result (TellsTime (record { line = line; stamp = stamp.now }) self.old self.new) }
    {
        if self.is_latest(line, stamp, short) {
            self.latest.set(alloc, line, stamp)?;
            return Ok(());
        }
        if self.is_late(line, stamp, short) {
            self.add_late(alloc, line, stamp)?;
            return Ok(());
        }
        Ok(())
    }

    /// One more timestamp, the word before a name, if it has the form of the latest and is not before it.
    #[inline(always)]
    pub(crate) fn add_before(&mut self, line: u32, text: &[u8], name: usize) -> bool
        requires { name ≤ length text.now }
        ensures { IfLike result (record { line = line; stamp = stamp_before text.now name }) self.old self.new }
    {
        self.latest.take_before(line, text, name)
    }

    /// The first line that is before the latest above it.
    pub(crate) fn first_late(&self) -> &Option<Late>
        ensures { result.now ≡ self.now.late.first }
    {
        &self.first_late
    }

    /// How many lines are before the latest above them.
    pub(crate) fn late(&self) -> u64
        ensures { result ≡ self.now.late.count }
    {
        self.late
    }
}
