//! The findings about rules: why a rule never fires.
ghost use Rattle.std.specs.Prelude.{◌≡◌, ◌++◌, OnOk};
ghost use Rattle.rv_findings.specs.Findings.{field_of_test, is_missing, is_missing_in, missing_text, near_text, nearest_text, never, never_text, no_hold_text, no_line_text, no_match_text, rule_finding, silent_text, test_never_text};

use crate::finding::{Finding, add, plain};
use rv_bind::{On, Test};
use rv_facts::{FieldCounts, Near, RuleCounts, line_at, put_brackets, put_test_text, put_word};
use rv_text::Line;
use std::alloc::{AllocError, Global};

/// A name of the trace that comes near.
fn put_near(out: &mut Line, near: &Near) -> Result<(), AllocError>
    ensures { OnOk result (out.new ≡ out.old ++ near_text near.now) }
{
    let word = near.name.bytes();
    put_word(out, b", and the nearest that it has is ", word)
}

/// The nearest name of the trace, where one comes near.
fn put_nearest(out: &mut Line, near: &[Near]) -> Result<(), AllocError>
    ensures { OnOk result (out.new ≡ out.old ++ nearest_text near.now) }
{
    match near {
        [] => Ok(()),
        [first, ..] => put_near(out, first),
    }
}

/// The field of a test.
fn field_of_test(test: &Test) -> &[u8]
    ensures { result.now ≡ field_of_test test.now }
{
    match test {
        Test::Is { field, .. } => field.bytes(),
        Test::IsNot { field, .. } => field.bytes(),
    }
}

/// Whether none of so many lines has the field.
fn is_missing_in(lines: u64, field: &[u8], counts: &FieldCounts) -> bool
    ensures { result ≡ is_missing_in lines field.now counts.now }
{
    counts.field.bytes() == field && counts.missing == lines
}

/// Whether no line of the rule's event has the field.
fn is_missing(c: &RuleCounts, field: &[u8]) -> bool
    ensures { result ≡ is_missing c.now field.now }
{
    c.fields
        .iter()
        .any(|counts| is_missing_in(c.lines, field, counts))
}

/// No line has the field.
fn put_missing(out: &mut Line, event: &[u8], field: &[u8]) -> Result<(), AllocError>
    ensures { OnOk result (out.new ≡ out.old ++ missing_text event.now field.now) }
{
    put_word(out, b"no line of ", event)?;
    out.text(b" has the field ")?;
    out.text(field)
}

/// The test holds on no line.
fn put_no_hold(out: &mut Line, event: &[u8], test: &Test) -> Result<(), AllocError>
    ensures { OnOk result (out.new ≡ out.old ++ no_hold_text event.now test.now) }
{
    put_test_text(out, test)?;
    put_word(out, b" holds on no line of ", event)
}

/// The field that no line has, or the test that holds on none.
fn put_test_never(
    out: &mut Line,
    event: &[u8],
    c: &RuleCounts,
    test: &Test,
) -> Result<(), AllocError>
    ensures { OnOk result (out.new ≡ out.old ++ test_never_text event.now c.now test.now) }
{
    let field = field_of_test(test);
    if is_missing(c, field) {
        put_missing(out, event, field)
    } else {
        put_no_hold(out, event, test)
    }
}

/// By the first test that holds on no line.
fn put_never(
    out: &mut Line,
    event: &[u8],
    c: &RuleCounts,
    tests: &[Test],
    holds: &[u64],
) -> Result<(), AllocError>
    ensures { OnOk result (out.new ≡ out.old ++ never_text event.now c.now (never tests.now holds.now)) }
{
    let count = tests.len().min(holds.len());
    'tests: for place in 0..count {
        if holds[place] == 0 {
            return put_test_never(out, event, c, &tests[place]);
        }
    }
    put_word(out, b"the tests hold together on no line of ", event)
}

/// The trace has no line of the event.
fn put_no_line(out: &mut Line, event: &[u8], near: &[Near]) -> Result<(), AllocError>
    ensures { OnOk result (out.new ≡ out.old ++ no_line_text event.now near.now) }
{
    put_word(out, b"the trace has no event ", event)?;
    put_nearest(out, near)
}

/// It has some, and the tests hold together on none.
fn put_no_match(out: &mut Line, rule: &On, c: &RuleCounts) -> Result<(), AllocError>
    ensures { OnOk result (out.new ≡ out.old ++ no_match_text rule.now c.now) }
{
    put_never(out, rule.event.bytes(), c, &rule.tests, &c.holds)?;
    put_brackets(out, c.lines)
}

/// Why a rule never fires.
fn put_silent(out: &mut Line, rule: &On, c: &RuleCounts) -> Result<(), AllocError>
    ensures { OnOk result (out.new ≡ out.old ++ silent_text rule.now c.now) }
{
    if c.lines == 0 {
        put_no_line(out, rule.event.bytes(), &c.near)
    } else {
        put_no_match(out, rule, c)
    }
}

/// It fires on no line of a trace that has an event.
pub(crate) fn add_rule(
    alloc: Global,
    found: &mut Vec<Finding>,
    events: u64,
    lines: &[u32],
    place: usize,
    rule: &On,
    c: &RuleCounts,
) -> Result<(), AllocError>
    ensures { OnOk result (found.new.items ≡ found.old.items ++ rule_finding events lines.now place rule.now c.now) }
{
    if events == 0 || c.fires != 0 {
        return Ok(());
    }
    let mut text = plain(alloc, b"rule-never-fires: ")?;
    put_silent(&mut text, rule, c)?;
    add(found, line_at(lines, place), text)
}
