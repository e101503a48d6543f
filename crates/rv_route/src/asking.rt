//! What a rule finds on a line: a condition on that line alone.
ghost use Rattle.std.specs.Prelude.{◌≡◌, ◌≤◌, length, map, All, OnOk, bytes_eq, option_map, option_copied};
ghost use Rattle.std.specs.List.{list_all};
ghost use Rattle.rv_text.specs.Decimal.{decimal_of};
ghost use Rattle.rv_trace.specs.Fields.{field_of};
ghost use Rattle.rv_route.specs.Asking.{text_at, has_value, differs, holds, pid_from, pid_at, value_found};
ghost use Rattle.rv_route.specs.inner.Asking.{pid_found, ask_on};
ghost use Rattle.rv_route.specs.FieldTests.{test_holds, all_pass};
ghost use Rattle.rv_trace.specs.FoundFields.{found_at, IsInside};
ghost use Rattle.rv_route.specs.Events.{tested_fields, HasFound};

use crate::event::Asked;
use crate::field_tests::FieldTest;
use rv_bind::{Monitor, On, Test};
use rv_model::Scope;
use rv_text::ByteClass;
use rv_trace::{HeldWord, LAST_PID, Span, TraceLine, held_field};
use std::alloc::AllocError;

/// What a rule asks for.
#[derive(Clone, Copy, Debug, Drop, PartialEq, Eq)]
pub enum Ask {
    /// The rule does not fire.
    Quiet,
    /// A delivery to this instance.
    Instance(u32),
    /// A delivery to the task with this pid.
    Pid(u32),
    /// The pid cannot be read.
    NoPid,
}

/// Looks the names up on a line, each once.
#[inline(always)]
pub(crate) fn look_up(
    fields: &[u8],
    names: &[HeldWord],
    found: &mut Vec<Option<Span>>,
) -> Result<(), AllocError>
    requires { length fields.now ≤ 4294967295 }
    ensures found { OnOk result (found.new.items ≡ map (field_of fields.now) names.now) }
    ensures inside { OnOk result (All (IsInside fields.now) found.new.items) }
{
    found.clear();
    for name in names {
        found.push(held_field(fields, name))?;
    }
    Ok(())
}

/// What the field has that was looked up at this place.
#[inline(always)]
pub fn value_at<'a>(fields: &'a [u8], found: &[Option<Span>], place: usize) -> Option<&'a [u8]>
    requires { All (IsInside fields.now) found.now }
    ensures { option_copied result ≡ value_found fields.now found.now place }
{
    if place >= found.len() {
        return None;
    }
    match found[place] {
        Some(span) => Some(&fields[span.from as usize..span.to as usize]),
        None => None,
    }
}

/// Whether the two are the same bytes. Most differ in length or in the first byte.
#[inline(always)]
pub(crate) fn has_value(one: &[u8], other: &[u8]) -> bool
    ensures { result ≡ bytes_eq one.now other.now }
{
    if one.len() != other.len() {
        return false;
    }
    if one.is_empty() {
        return true;
    }
    one[0] == other[0] && (one.len() == 1 || one == other)
}

/// Whether the value is the one that is wanted.
#[inline(always)]
fn is_wanted(found: Option<&[u8]>, wanted: &[u8]) -> bool
    ensures { result ≡ has_value wanted.now (option_copied found.entry) }
{
    match found {
        Some(found) => has_value(found, wanted),
        None => false,
    }
}

/// Whether there is a value, and it is another than this one.
#[inline(always)]
fn differs(found: Option<&[u8]>, wanted: &[u8]) -> bool
    ensures { result ≡ differs wanted.now (option_copied found.entry) }
{
    let Some(found) = found else {
        return false;
    };
    !has_value(found, wanted)
}

/// Whether a test holds of what its field has.
#[inline(always)]
pub fn test_holds(test: &Test, found: Option<&[u8]>) -> bool
    ensures { result ≡ test_holds test.now (option_copied found.entry) }
{
    match test {
        Test::Is { value, .. } => is_wanted(found, value.bytes()),
        Test::IsNot { value, .. } => differs(found, value.bytes()),
    }
}

/// Whether all tests hold, whose fields were looked up at these places.
fn all_hold(fields: &[u8], tests: &[Test], places: &[usize], found: &[Option<Span>]) -> bool
    requires found { map (found_at found.now) places.now ≡ map (field_of fields.now) (tested_fields tests.now) }
    requires inside { All (IsInside fields.now) found.now }
    ensures { result ≡ list_all (holds fields.now) tests.now }
{
    for test in 0..tests.len() {
        let value = value_at(fields, found, places[test]);
        if !test_holds(&tests[test], value) {
            return false;
        }
    }
    true
}

/// Whether what was looked up passes, field by field.
#[inline(never)]
fn all_pass(fields: &[u8], tests: &[FieldTest], found: &[Option<Span>]) -> bool
    requires { All (IsInside fields.now) found.now }
    ensures { result ≡ all_pass (value_found fields.now found.now) tests.now }
{
    for test in tests {
        if !test.passes(value_at(fields, found, test.place)) {
            return false;
        }
    }
    true
}

/// Whether all tests of the rule hold.
#[inline(always)]
pub fn is_met(fields: &[u8], rule: &On, asked: &Asked, found: &[Option<Span>]) -> bool
    requires found { HasFound fields.now found.now asked.now rule.now }
    requires inside { All (IsInside fields.now) found.now }
    ensures { result ≡ list_all (holds fields.now) rule.now.tests }
{
    match &asked.by_field {
        Some(tests) => all_pass(fields, tests.as_slice(), found),
        None => all_hold(fields, rule.tests.as_slice(), asked.tests.as_slice(), found),
    }
}

/// The pid that a field's value is.
fn pid_at(value: Option<&[u8]>) -> Ask
    ensures { result ≡ pid_at (option_copied value.entry) }
{
    match value {
        Some(text) => pid_in(text),
        None => Ask::NoPid,
    }
}

/// The pid that digits spell. No digit may follow a number that is larger than a tenth of the last pid.
fn pid_in(text: &[u8]) -> Ask
    ensures { result ≡ pid_from (decimal_of text.now) }
{
    if text.is_empty() {
        return Ask::NoPid;
    }
    let mut pid: u64 = 0;
    for &byte in text {
        if !ByteClass::Digit.has(byte) {
            return Ask::NoPid;
        }
        if pid > LAST_PID as u64 / 10 {
            return Ask::NoPid;
        }
        pid = pid * 10 + (byte - b'0') as u64;
    }
    if pid > LAST_PID as u64 {
        return Ask::NoPid;
    }
    Ask::Pid(pid as u32)
}

/// The pid in the rule's field, or else the line's.
fn pid_of(fields: &[u8], line: &TraceLine, by: Option<usize>, found: &[Option<Span>]) -> Ask
    requires { All (IsInside fields.now) found.now }
    ensures { result ≡ pid_found fields.now line.now (option_map (found_at found.now) by) }
{
    match by {
        Some(place) => pid_at(value_at(fields, found, place)),
        None => Ask::Pid(line.pid),
    }
}

/// What a rule asks for on a line of its event, whose fields were looked up.
pub(crate) fn ask_for(
    monitors: &[Monitor],
    rule: &On,
    asked: &Asked,
    line: &TraceLine,
    fields: &[u8],
    found: &[Option<Span>],
) -> Ask
    requires found { HasFound fields.now found.now asked.now rule.now }
    requires inside { All (IsInside fields.now) found.now }
    ensures { result ≡ ask_on fields.now line.now monitors.now rule.now }
{
    if !is_met(fields, rule, asked, found) {
        return Ask::Quiet;
    }
    let Some(monitor) = monitors.get(rule.monitor as usize) else {
        return Ask::Quiet;
    };
    match monitor.scope {
        Scope::Global => Ask::Instance(0),
        Scope::Cpu => Ask::Instance(line.cpu as u32),
        Scope::Task => pid_of(fields, line, asked.by, found),
    }
}
