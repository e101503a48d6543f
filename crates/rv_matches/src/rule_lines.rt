//! What the lines of a trace are to the rules of the bindings.
ghost use Rattle.std.specs.Prelude.{◌≡◌, ◌≤◌, ◌+◌, List, [], length, map, filter, All, Some, IfOk, OnOk, if◌then◌else◌, option_copied, slice_get};
ghost use Rattle.std.specs.List.{AllZip, list_all, list_any};
ghost use Rattle.rv_route.specs.Asking.{holds};
ghost use Rattle.rv_bind.specs.declared.bindings.Test.{Test};
ghost use Rattle.rv_route.specs.Events.{HasFound, IsEventOf, is_on_event, tested_fields};
ghost use Rattle.rv_route.specs.Lines.{IsRoutable};
ghost use Rattle.rv_trace.specs.FoundFields.{AreFound, IsInside};
ghost use Rattle.rv_matches.specs.LineEvents.{event_on};
ghost use Rattle.rv_matches.specs.RuleLines.{AreRuleLines, CountsRuleLine, HasTest, IsByTests, IsForRules, IsRuleLine, field_counts, field_told, kept_fields, rule_counts};
ghost use Rattle.rv_matches.specs.inner.RuleSteps.{field_name};
ghost use Rattle.rv_matches.specs.inner.RuleSteps.{CountsEventLine, CountsFields, CountsLineOf, CountsNamedLine, CountsTests, CountsValue, KeepsField, KeepsName};
ghost use Rattle.rv_matches.specs.Words.{is_kept_among};

use crate::asked_rules::asked_rules;
use crate::plain_events::{PlainEvents, add_fired, add_plain};
use crate::words::{CountedWords, one_more};
use rv_bind::{On, Test};
use rv_model::Name;
use rv_route::{
    Asked, Event, Finds, Index, event_at, index_of, is_met, test_holds, tested_field, value_at,
};
use rv_trace::{Span, TraceLine};
use std::alloc::{AllocError, Global};
use std::marker::Model;

/// The most fields of a rule whose values are kept.
pub const MOST_FIELDS: usize = 16;
/// The most values of a field that are kept.
pub const MOST_VALUES: usize = 16;

/// What a field has on the lines of its rule's event.
#[derive(Drop)]
pub struct FieldLines {
    pub field: Name,
    /// The first test of the field.
    pub test: usize,
    pub values: CountedWords,
    /// The lines that do not have the field.
    pub missing: u64,
}

/// What the lines are to a rule. Tests and fields are told of only as long as it fires on no line.
#[derive(Drop)]
pub struct RuleLine {
    /// The lines of its event.
    pub lines: u64,
    pub fires: u64,
    /// For each test on how many of these it holds.
    pub holds: Vec<u64>,
    pub fields: Vec<FieldLines>,
}

/// What the lines are to all rules. Only the rules on a line's event are looked at.
#[derive(Drop)]
pub struct RuleLines {
    /// The rules without what only routing needs: no other field is looked up than those of tests.
    asked: Vec<On>,
    index: Index,
    /// The events whose rules have no tests.
    plain: PlainEvents,
    /// What a line's fields have.
    finds: Finds,
    rules: Vec<RuleLine>,
    named: u64,
    fired: u64,
}

impl Model for RuleLines {
    ghost use Rattle.rv_matches.specs.RuleLines.{RuleLinesValue};

    ghost Value = { RuleLinesValue };

    ghost view = { λ r. record { asked = r.asked.items; index = r.index; plain = r.plain; rules = r.rules.items; named = r.named; fired = r.fired } };
}

/// One more where it is so.
fn count_if(count: u64, is: bool) -> Result<u64, AllocError>
    ensures { IfOk result (λ n. n ≡ count + (if is then 1 else 0)) }
{
    if is {
        return one_more(count);
    }
    Ok(count)
}

/// Whether the field is kept.
fn has_field(fields: &[FieldLines], name: &[u8]) -> bool
    ensures { result ≡ is_kept_among (map field_name fields.now) name.now }
{
    for field in fields {
        if field.field.bytes() == name {
            return true;
        }
    }
    false
}

/// Keeps the field of one more test, unless it is kept or there are too many.
fn keep_field(
    alloc: Global,
    fields: &mut Vec<FieldLines>,
    test: usize,
    name: &[u8],
) -> Result<(), AllocError>
    ensures kept { OnOk result (KeepsName name.now fields.old.items fields.new.items) }
    ensures tests { OnOk result ((tests : List Test) → slice_get (tested_fields tests) test ≡ Some name.now → All (HasTest tests) fields.old.items → All (HasTest tests) fields.new.items) }
{
    if fields.len() >= MOST_FIELDS || has_field(fields.as_slice(), name) {
        return Ok(());
    }
    fields.push(FieldLines {
        field: Name::new(alloc, name)?,
        test,
        values: CountedWords::new(alloc, MOST_VALUES),
        missing: 0,
    })?;
    Ok(())
}

/// The fields that the tests name, of which no line was seen.
fn fields_of(alloc: Global, tests: &[Test]) -> Result<Vec<FieldLines>, AllocError>
    ensures fields { IfOk result (λ fields. map field_told fields.items ≡ map (field_counts []) (kept_fields tests.now)) }
    ensures tests { IfOk result (λ fields. All (HasTest tests.now) fields.items) }
{
    let mut fields = Vec::new(alloc);
    for test in 0..tests.len() {
        keep_field(alloc, &mut fields, test, tested_field(&tests[test]).bytes())?;
    }
    Ok(fields)
}

/// What no lines are to a rule.
fn no_lines(alloc: Global, rule: &On) -> Result<RuleLine, AllocError>
    ensures none { IfOk result (IsRuleLine (rule_counts [] rule.now)) }
    ensures places { IfOk result (IsByTests rule.now) }
{
    Ok(RuleLine {
        lines: 0,
        fires: 0,
        holds: vec![in alloc; 0; rule.tests.len()]?,
        fields: fields_of(alloc, rule.tests.as_slice())?,
    })
}

/// Counts the tests that hold.
fn add_tests(
    holds: &mut Vec<u64>,
    rule: &On,
    asked: &Asked,
    fields: &[u8],
    found: &[Option<Span>],
) -> Result<(), AllocError>
    requires found { HasFound fields.now found.now asked.now rule.now }
    requires inside { All (IsInside fields.now) found.now }
    requires few { length holds.old.items ≤ length rule.now.tests }
    ensures counts { OnOk result (CountsTests fields.now rule.now.tests holds.old.items holds.new.items) }
    ensures many { length holds.new.items ≡ length holds.old.items }
{
    for test in 0..holds.len() {
        let value = value_at(fields, found, asked.tests[test]);
        holds[test] = count_if(holds[test], test_holds(&rule.tests[test], value))?;
    }
    Ok(())
}

/// Counts a value of the field, or that there is none.
fn add_value(alloc: Global, count: &mut FieldLines, value: Option<&[u8]>) -> Result<(), AllocError>
    requires { count.old.values.most ≡ MOST_VALUES }
    ensures counts { OnOk result (CountsValue (option_copied value.entry) count.old count.new) }
    ensures kept { KeepsField count.old count.new }
{
    match value {
        Some(value) => {
            count.values.add(alloc, value)?;
            Ok(())
        }
        None => {
            count.missing = one_more(count.missing)?;
            Ok(())
        }
    }
}

/// Counts what the fields have.
fn add_fields(
    alloc: Global,
    list: &mut Vec<FieldLines>,
    rule: &On,
    asked: &Asked,
    fields: &[u8],
    found: &[Option<Span>],
) -> Result<(), AllocError>
    requires found { HasFound fields.now found.now asked.now rule.now }
    requires inside { All (IsInside fields.now) found.now }
    requires tests { All (HasTest rule.now.tests) list.old.items }
    ensures counts { OnOk result (CountsFields fields.now (map field_told list.old.items) (map field_told list.new.items)) }
    ensures tests { All (HasTest rule.now.tests) list.new.items }
    ensures many { length list.new.items ≡ length list.old.items }
{
    for place in 0..list.len() {
        let test = list[place].test;
        add_value(
            alloc,
            &mut list[place],
            value_at(fields, found, asked.tests[test]),
        )?;
    }
    Ok(())
}

/// Whether the rule fires. One without tests fires on each line of its event.
#[inline(always)]
fn is_fired(fields: &[u8], rule: &On, asked: &Asked, found: &[Option<Span>]) -> bool
    requires found { HasFound fields.now found.now asked.now rule.now }
    requires inside { All (IsInside fields.now) found.now }
    ensures { result ≡ list_all (holds fields.now) rule.now.tests }
{
    if rule.tests.is_empty() {
        return true;
    }
    is_met(fields, rule, asked, found)
}

/// One more line of the rule's event, whose fields were looked up. Whether the rule fires.
#[inline(always)]
fn add_line(
    alloc: Global,
    count: &mut RuleLine,
    rule: &On,
    asked: &Asked,
    fields: &[u8],
    found: &[Option<Span>],
) -> Result<bool, AllocError>
    requires found { HasFound fields.now found.now asked.now rule.now }
    requires inside { All (IsInside fields.now) found.now }
    requires places { IsByTests rule.now count.old }
    ensures counts { OnOk result (CountsEventLine rule.now fields.now count.old count.new) }
    ensures fires { IfOk result (λ fires. fires ≡ list_all (holds fields.now) rule.now.tests) }
    ensures places { IsByTests rule.now count.new }
{
    if is_fired(fields, rule, asked, found) {
        add_fired(count)?;
        return Ok(true);
    }
    count.lines = one_more(count.lines)?;
    add_tests(&mut count.holds, rule, asked, fields, found)?;
    add_fields(alloc, &mut count.fields, rule, asked, fields, found)?;
    Ok(false)
}

/// One more line of an event. Whether a rule fires.
fn add_event(
    alloc: Global,
    counts: &mut [RuleLine],
    rules: &[On],
    event: &Event,
    fields: &[u8],
    found: &[Option<Span>],
) -> Result<bool, AllocError>
    requires event { IsEventOf rules.now event.now.name event.now }
    requires found { AreFound fields.now event.now.fields found.now }
    requires inside { All (IsInside fields.now) found.now }
    requires places { AllZip IsByTests rules.now counts.old }
    ensures counts { OnOk result (CountsLineOf rules.now event.now.name fields.now counts.old counts.new) }
    ensures fires { IfOk result (λ fired. fired ≡ list_any (λ rule. list_all (holds fields.now) rule.tests) (filter (is_on_event event.now.name) rules.now)) }
    ensures places { AllZip IsByTests rules.now counts.new }
{
    let mut fired = false;
    for asked in &event.rules {
        let rule = &rules[asked.rule];
        let fires = add_line(alloc, &mut counts[asked.rule], rule, asked, fields, found)?;
        fired = fired || fires;
    }
    Ok(fired)
}

impl RuleLines {
    /// No line was seen. The rules are to be those that every call is given.
    pub fn new(alloc: Global, rules: &[On]) -> Result<RuleLines, AllocError>
        ensures made { IfOk result (IsForRules rules.now) }
        ensures none { IfOk result (AreRuleLines rules.now []) }
    {
        let asked = asked_rules(alloc, rules)?;
        let list = asked.as_slice();
        let index = index_of(alloc, list)?;
        let plain = PlainEvents::new(alloc, list, &index)?;
        let mut counts = Vec::with_capacity(alloc, rules.len())?;
        for rule in &asked {
            counts.push(no_lines(alloc, rule)?)?;
        }
        Ok(RuleLines {
            asked,
            index,
            plain,
            finds: Finds::new(alloc),
            rules: counts,
            named: 0,
            fired: 0,
        })
    }

    /// One more line, whose pieces are places in the text. What is asked of it was kept at first: the rules are for the contract.
    pub fn add(
        &mut self,
        alloc: Global,
        rules: &[On],
        text: &[u8],
        line: &TraceLine,
    ) -> Result<(), AllocError>
        requires made { IsForRules rules.now self.old }
        requires line { IsRoutable text.now line.now }
        ensures counts { OnOk result (CountsRuleLine rules.now (event_on text.now line.now) self.old self.new) }
        ensures made { IsForRules rules.now self.new }
    {
        let name = &text[line.name.from as usize..line.name.to as usize];
        if let Some(place) = self.plain.find(name, &text[line.name.from as usize..]) {
            add_plain(
                self.rules.as_mut_slice(),
                self.asked.as_slice(),
                self.plain.at(place),
            )?;
            self.named = one_more(self.named)?;
            self.fired = one_more(self.fired)?;
            return Ok(());
        }
        let fields = &text[line.fields.from as usize..line.fields.to as usize];
        self.add_asked(alloc, rules, name, fields)?;
        Ok(())
    }

    /// One more line of an event whose rules may have tests. Apart from the events that are found at once, and by what it needs
    /// alone: for a line that it were given all lines would have to be kept.
    #[inline(never)]
    fn add_asked(
        &mut self,
        alloc: Global,
        rules: &[On],
        name: &[u8],
        fields: &[u8],
    ) -> Result<(), AllocError>
        requires made { IsForRules rules.now self.old }
        requires few { length fields.now ≤ 4294967295 }
        ensures counts { OnOk result (CountsNamedLine rules.now name.now fields.now self.old self.new) }
        ensures made { IsForRules rules.now self.new }
    {
        let Some(event) = event_at(&self.index, name, name) else {
            return Ok(());
        };
        if event.rules.is_empty() {
            return Ok(());
        }
        let found = self.finds.look_up(fields, &event.fields)?;
        let fired = add_event(
            alloc,
            self.rules.as_mut_slice(),
            self.asked.as_slice(),
            event,
            fields,
            found,
        )?;
        self.named = one_more(self.named)?;
        self.fired = count_if(self.fired, fired)?;
        Ok(())
    }

    /// What the lines are to each rule.
    pub fn rules(&self) -> &[RuleLine]
        ensures { result.now ≡ self.now.rules }
    {
        self.rules.as_slice()
    }

    /// How many lines are of an event that some rule is on.
    pub fn named(&self) -> u64
        ensures { result ≡ self.now.named }
    {
        self.named
    }

    /// On how many lines some rule fires.
    pub fn fired(&self) -> u64
        ensures { result ≡ self.now.fired }
    {
        self.fired
    }
}
