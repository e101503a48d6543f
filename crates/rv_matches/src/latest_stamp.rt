//! The latest timestamp, kept so that one of the same form is compared with it at once.
ghost use Rattle.std.specs.Prelude.{◌≡◌, ◌<◌, ◌≤◌, ℕ, length, slice_index, take, true, None, Some, IfSome, OnErr, OnOk};
ghost use Rattle.std.specs.Option.{option_map};
ghost use Rattle.rv_text.specs.Places.{has_class};
ghost use Rattle.rv_text.specs.declared.runs.ByteClass.TheVariants as kinds;
ghost use Rattle.rv_matches.specs.LineEvents.{stamp_before};
ghost use Rattle.rv_matches.specs.inner.LateTimes.{HasTime, IfTaken, stamp_in};

use crate::lanes::alike_in;
use rv_trace::{WIDTH, same_in};
use std::alloc::{AllocError, Global};
use std::marker::Model;
use std::simd::prelude::*;

/// The latest timestamp and its line, if there is one.
#[derive(Drop)]
pub(crate) struct LatestStamp {
    /// The bytes of a short one, and any behind them.
    near: [u8; 16],
    /// How many bytes a short one has, or 0.
    end: usize,
    /// Any other.
    far: Option<Vec<u8>>,
    line: u32,
}

impl Model for LatestStamp {
    ghost use Rattle.std.specs.Prelude.{◌≤◌, Option, Some, nat_eq, if◌then◌else◌, take};
    ghost use Rattle.std.specs.Option.{option_map};
    ghost use Rattle.rv_matches.specs.declared.late.Stamped.{Stamped};

    ghost Value = { Option Stamped };

    ghost view = { λ s. if nat_eq s.end 0 then option_map (λ stamp. record { line = s.line; stamp = stamp.items }) s.far else Some (record { line = s.line; stamp = take s.end s.near }) };

    ghost invariant = { λ s. s.end ≤ 16 };
}

impl LatestStamp {
    /// There is none.
    pub(crate) fn new() -> LatestStamp
        ensures { result ≡ None }
    {
        LatestStamp {
            near: [0; 16],
            end: 0,
            far: None,
            line: 0,
        }
    }

    /// Its bytes.
    #[inline(always)]
    pub(crate) fn stamp(&self) -> Option<&[u8]>
        ensures { option_map (λ stamp. stamp.now) result ≡ option_map stamp_in self.now }
    {
        if self.end == 0 {
            return self.far.as_deref();
        }
        Some(&self.near[..self.end])
    }

    /// Its line.
    pub(crate) fn line(&self) -> u32
        ensures { IfSome self.now (λ s. result ≡ s.line) }
    {
        self.line
    }

    /// Any timestamp becomes the latest.
    pub(crate) fn set(&mut self, alloc: Global, line: u32, stamp: &[u8]) -> Result<(), AllocError>
        ensures ok { OnOk result (self.new ≡ Some (record { line = line; stamp = stamp.now })) }
        ensures err { OnErr result (self.new ≡ self.old) }
    {
        if stamp.is_empty() || stamp.len() > WIDTH {
            let far = Vec::from_slice(alloc, stamp)?;
            self.end = 0;
            self.far = Some(far);
            self.line = line;
            return Ok(());
        }
        let mut near = [0; 16];
        near[..stamp.len()].copy_from_slice(stamp);
        self.near = near;
        self.end = stamp.len();
        self.line = line;
        Ok(())
    }

    /// Whether the timestamp, the first bytes of these, has the form of the latest and is not before it. Then it becomes the latest if it is later.
    #[inline(always)]
    fn take_like(&mut self, line: u32, bytes: &[u8], end: usize) -> bool
        requires { HasTime self.old }
        ensures taken { IfTaken result (record { line = line; stamp = take end bytes.now }) self.old self.new }
        ensures word { result ≡ true → (k : ℕ) → k < end → has_class kinds.Word (slice_index bytes.now k) ≡ true }
    {
        if end != self.end || end == 0 || bytes.len() < WIDTH || alike_in(&self.near, bytes) < end {
            return false;
        }
        let same = same_in(&self.near, bytes);
        if same >= end {
            return true;
        }
        if bytes[same] < self.near[same] {
            return false;
        }
        self.near = u8x16::from_slice(bytes).to_array();
        self.line = line;
        true
    }

    /// The same of the word before a name, without its colon. It is looked for only where one as long as the latest would stand, between single blanks.
    #[inline(always)]
    pub(crate) fn take_before(&mut self, line: u32, text: &[u8], name: usize) -> bool
        requires time { HasTime self.old }
        requires name { name ≤ length text.now }
        ensures { IfTaken result (record { line = line; stamp = stamp_before text.now name }) self.old self.new }
    {
        let end = self.end;
        if name < end + 3
            || text[name - end - 3] != b' '
            || text[name - 2] != b':'
            || text[name - 1] != b' '
        {
            return false;
        }
        self.take_like(line, &text[name - end - 2..], end)
    }
}
