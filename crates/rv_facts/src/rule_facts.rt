//! The facts of a rule.
ghost use Rattle.std.specs.Prelude.{◌≡◌, ◌++◌, IfOk, OnOk, codes, flat_map};
ghost use Rattle.rv_facts.specs.Orders.{most_first};
ghost use Rattle.rv_facts.specs.Pairs.{of_pairs};
ghost use Rattle.rv_facts.specs.Shown.{counted_fact, lines_text, shown};
ghost use Rattle.rv_facts.specs.RuleFacts.{field_facts, near_fact, other_fact, own_rule_facts, rule_fact, rule_facts, rule_front, test_fact, test_text, why_facts};

use crate::counts::{Counted, FieldCounts, Near, RuleCounts};
use crate::orders::{copied, sort_most_first};
use crate::pieces::{line_at, put_all_counted, put_lines, put_number, put_number_end, put_shown};
use rv_bind::{On, Test};
use rv_text::Line;
use std::alloc::{AllocError, Global};

/// How each fact of the rule on this line begins.
fn put_front(out: &mut Line, name: &[u8], line: u32) -> Result<(), AllocError>
    ensures { OnOk result (out.new ≡ out.old ++ rule_front name.now line) }
{
    out.text(name)?;
    put_number(out, b": on", line as u64)?;
    out.text(b" ")
}

/// The lines of its event, and those on which it fires.
fn put_rule(out: &mut Line, front: &[u8], rule: &On, c: &RuleCounts) -> Result<(), AllocError>
    ensures { OnOk result (out.new ≡ out.old ++ rule_fact front.now rule.now c.now) }
{
    out.text(front)?;
    put_shown(out, rule.event.bytes())?;
    put_number(out, b": lines", c.lines)?;
    put_number_end(out, b", fires", c.fires)
}

/// A name of the trace that comes near to its event.
fn put_near(out: &mut Line, front: &[u8], near: &Near) -> Result<(), AllocError>
    ensures { OnOk result (out.new ≡ out.old ++ near_fact front.now near.now) }
{
    out.text(front)?;
    out.text(b"near ")?;
    put_shown(out, near.name.bytes())?;
    put_number(out, b": lines", near.lines)?;
    put_number_end(out, b", distance", near.distance)
}

/// All that come near.
fn put_all_near(out: &mut Line, front: &[u8], names: &[Near]) -> Result<(), AllocError>
    ensures { OnOk result (out.new ≡ out.old ++ flat_map (near_fact front.now) names.now) }
{
    'names: for near in names {
        put_near(out, front, near)?;
    }
    Ok(())
}

/// Two words of the bindings, and a mark between them.
fn put_between(out: &mut Line, left: &[u8], mark: &[u8], right: &[u8]) -> Result<(), AllocError>
    ensures { OnOk result (out.new ≡ out.old ++ shown left.now ++ mark.now ++ shown right.now) }
{
    put_shown(out, left)?;
    out.text(mark)?;
    put_shown(out, right)
}

/// A test as the bindings have it.
pub fn put_test_text(out: &mut Line, test: &Test) -> Result<(), AllocError>
    ensures { OnOk result (out.new ≡ out.old ++ test_text test.now) }
{
    match test {
        Test::Is { field, value } => put_between(out, field.bytes(), b"=", value.bytes()),
        Test::IsNot { field, value } => put_between(out, field.bytes(), b"!=", value.bytes()),
    }
}

/// A test that does not hold on all lines of the event.
fn put_test(
    out: &mut Line,
    front: &[u8],
    lines: u64,
    place: usize,
    test: &Test,
    holds: u64,
) -> Result<(), AllocError>
    ensures { OnOk result (out.new ≡ out.old ++ test_fact front.now lines place test.now holds) }
{
    if holds == lines {
        return Ok(());
    }
    out.text(front)?;
    out.text(b"if ")?;
    put_test_text(out, test)?;
    put_number_end(out, b": holds", holds)
}

/// The tests, each with the number of the lines on which it holds.
#[tactic(auto, using(crate::proofs::PairLemmas::more_pairs, crate::proofs::PairLemmas::all_pairs))]
fn put_tests(
    out: &mut Line,
    front: &[u8],
    lines: u64,
    tests: &[Test],
    holds: &[u64],
) -> Result<(), AllocError>
    ensures { OnOk result (out.new ≡ out.old ++ of_pairs (test_fact front.now lines) tests.now holds.now) }
{
    let count = tests.len().min(holds.len());
    'tests: for place in 0..count {
        put_test(out, front, lines, place, &tests[place], holds[place])?;
    }
    Ok(())
}

/// Lines of no word that is told, where there are some.
pub(crate) fn put_other(out: &mut Line, front: &[u8], lines: u64) -> Result<(), AllocError>
    ensures { OnOk result (out.new ≡ out.old ++ other_fact front.now lines) }
{
    if lines == 0 {
        return Ok(());
    }
    out.text(front)?;
    put_lines(out, lines)
}

/// A text, and then a word of the bindings, to begin facts with.
fn begun(alloc: Global, front: &[u8], text: &[u8], field: &[u8]) -> Result<Line, AllocError>
    ensures { IfOk result (λ line. line ≡ front.now ++ text.now ++ field.now) }
{
    let mut line = Line::new(alloc);
    line.text(front)?;
    line.text(text)?;
    line.text(field)?;
    Ok(line)
}

/// How each fact of a value begins.
fn value_front(alloc: Global, front: &[u8], field: &[u8]) -> Result<Line, AllocError>
    ensures { IfOk result (λ line. line ≡ front.now ++ codes "has " ++ field.now ++ codes "=") }
{
    let mut line = begun(alloc, front, b"has ", field)?;
    line.text(b"=")?;
    Ok(line)
}

/// A fact of each of the words, the most frequent first.
fn put_most_first(
    alloc: Global,
    out: &mut Line,
    front: &[u8],
    words: &[Counted],
) -> Result<(), AllocError>
    ensures { OnOk result (out.new ≡ out.old ++ flat_map (counted_fact front.now) (most_first words.now)) }
{
    let mut sorted = copied(alloc, words)?;
    sort_most_first(&mut sorted)?;
    put_all_counted(out, front, &sorted)
}

/// The values of a field that were kept, the most frequent first.
fn put_values(
    alloc: Global,
    out: &mut Line,
    front: &[u8],
    field: &FieldCounts,
) -> Result<(), AllocError>
    ensures { OnOk result (out.new ≡ out.old ++ flat_map (counted_fact (front.now ++ codes "has " ++ field.now.field ++ codes "=")) (most_first field.now.values.items)) }
{
    let has = value_front(alloc, front, field.field.bytes())?;
    put_most_first(alloc, out, has.bytes(), &field.values)
}

/// How often a field has other values, where it has some.
fn put_other_values(
    alloc: Global,
    out: &mut Line,
    front: &[u8],
    field: &FieldCounts,
) -> Result<(), AllocError>
    ensures { OnOk result (out.new ≡ out.old ++ other_fact (front.now ++ codes "has other " ++ field.now.field) field.now.other) }
{
    let other = begun(alloc, front, b"has other ", field.field.bytes())?;
    put_other(out, other.bytes(), field.other)
}

/// How often the field is missing.
fn put_missing(out: &mut Line, front: &[u8], field: &FieldCounts) -> Result<(), AllocError>
    ensures { OnOk result (out.new ≡ out.old ++ front.now ++ codes "has no " ++ field.now.field ++ lines_text field.now.missing) }
{
    out.text(front)?;
    out.text(b"has no ")?;
    out.text(field.field.bytes())?;
    put_lines(out, field.missing)
}

/// The values of a field, and how often it has others, and none.
fn put_field(
    alloc: Global,
    out: &mut Line,
    front: &[u8],
    field: &FieldCounts,
) -> Result<(), AllocError>
    ensures { OnOk result (out.new ≡ out.old ++ field_facts front.now field.now) }
{
    put_values(alloc, out, front, field)?;
    put_other_values(alloc, out, front, field)?;
    put_missing(out, front, field)
}

/// All fields.
fn put_fields(
    alloc: Global,
    out: &mut Line,
    front: &[u8],
    fields: &[FieldCounts],
) -> Result<(), AllocError>
    ensures { OnOk result (out.new ≡ out.old ++ flat_map (field_facts front.now) fields.now) }
{
    'fields: for field in fields {
        put_field(alloc, out, front, field)?;
    }
    Ok(())
}

/// Of a rule that never fires, why.
fn put_why(
    alloc: Global,
    out: &mut Line,
    front: &[u8],
    rule: &On,
    c: &RuleCounts,
) -> Result<(), AllocError>
    ensures { OnOk result (out.new ≡ out.old ++ why_facts front.now rule.now c.now) }
{
    if c.lines == 0 {
        put_all_near(out, front, &c.near)
    } else if c.fires == 0 {
        put_tests(out, front, c.lines, &rule.tests, &c.holds)?;
        put_fields(alloc, out, front, &c.fields)
    } else {
        Ok(())
    }
}

/// All of the rule on a line of the bindings.
fn put_rule_facts(
    alloc: Global,
    out: &mut Line,
    name: &[u8],
    line: u32,
    rule: &On,
    c: &RuleCounts,
) -> Result<(), AllocError>
    ensures { OnOk result (out.new ≡ out.old ++ rule_facts (rule_front name.now line) rule.now c.now) }
{
    let mut front = Line::new(alloc);
    put_front(&mut front, name, line)?;
    put_rule(out, front.bytes(), rule, c)?;
    put_why(alloc, out, front.bytes(), rule, c)
}

/// The same of a rule that is the monitor's.
fn put_own_rule(
    alloc: Global,
    out: &mut Line,
    name: &[u8],
    lines: &[u32],
    monitor: usize,
    place: usize,
    rule: &On,
    c: &RuleCounts,
) -> Result<(), AllocError>
    ensures { OnOk result (out.new ≡ out.old ++ own_rule_facts name.now lines.now monitor place rule.now c.now) }
{
    if rule.monitor as usize == monitor {
        put_rule_facts(alloc, out, name, line_at(lines, place), rule, c)
    } else {
        Ok(())
    }
}

/// All rules of the monitor at an index.
#[tactic(auto, using(crate::proofs::PairLemmas::more_pairs, crate::proofs::PairLemmas::all_pairs))]
pub(crate) fn put_rules(
    alloc: Global,
    out: &mut Line,
    name: &[u8],
    lines: &[u32],
    monitor: usize,
    rules: &[On],
    counts: &[RuleCounts],
) -> Result<(), AllocError>
    ensures { OnOk result (out.new ≡ out.old ++ of_pairs (own_rule_facts name.now lines.now monitor) rules.now counts.now) }
{
    let count = rules.len().min(counts.len());
    'rules: for place in 0..count {
        put_own_rule(
            alloc,
            out,
            name,
            lines,
            monitor,
            place,
            &rules[place],
            &counts[place],
        )?;
    }
    Ok(())
}
