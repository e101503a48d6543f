//! What is asked on the lines of one event.
ghost use Rattle.std.specs.Prelude.{◌≡◌, length, map, filter, option_map, slice_get, Some, IfOk, IfSome, OnOk};
ghost use Rattle.std.specs.List.{AllZip};
ghost use Rattle.rv_trace.specs.FoundFields.{Extends};
ghost use Rattle.rv_route.specs.FieldTests.{MeanTests};
ghost use Rattle.rv_route.specs.Events.{tested_field, tested_fields, HasFields, IsAsked, IsEventOf, is_on_event, asked_place, places_on};

use crate::asking::has_value;
use crate::field_tests::{FieldTest, by_field};
use rv_bind::{On, Test};
use rv_model::Name;
use rv_trace::{FieldNames, HeldWord};
use std::alloc::{AllocError, Global};

/// From so many tests on they are asked field by field.
const MANY_TESTS: usize = 16;

/// A rule, by the places of what it names.
#[derive(Drop)]
pub struct Asked {
    /// The rule's place among all rules.
    pub rule: usize,
    /// For each test the place of its field among the event's.
    pub tests: Vec<usize>,
    /// The same tests field by field, where there are many.
    pub(crate) by_field: Option<Vec<FieldTest>>,
    /// The place of the field that has the pid.
    pub(crate) by: Option<usize>,
}

/// An event that rules are on.
#[derive(Drop)]
pub struct Event {
    pub name: HeldWord,
    /// The fields that its rules name, each once.
    pub fields: FieldNames,
    /// Its rules, in their order.
    pub rules: Vec<Asked>,
}

/// The event of this name.
pub(crate) fn event_of(alloc: Global, rules: &[On], name: &[u8]) -> Result<Event, AllocError>
    ensures name { IfOk result (λ event. event.name ≡ name.now) }
    ensures rules { IfOk result (IsEventOf rules.now name.now) }
{
    let mut names = FieldNames::new(alloc);
    let asked = asked_on(alloc, rules, name, &mut names)?;
    Ok(Event {
        name: HeldWord::new(alloc, name)?,
        fields: names,
        rules: asked,
    })
}

/// The rules on an event, whose fields go among the names.
fn asked_on(
    alloc: Global,
    rules: &[On],
    event: &[u8],
    names: &mut FieldNames,
) -> Result<Vec<Asked>, AllocError>
    ensures asked { IfOk result (λ asked. AllZip (IsAsked rules.now names.new) asked.items (filter (is_on_event event.now) rules.now)) }
    ensures places { IfOk result (λ asked. map asked_place asked.items ≡ places_on event.now 0 rules.now) }
{
    let mut list = Vec::new(alloc);
    for place in 0..rules.len() {
        let rule = &rules[place];
        if has_value(event, rule.event.bytes()) {
            list.push(asked_of(alloc, rule, place, names)?)?;
        }
    }
    Ok(list)
}

/// The rule that stands at this place.
fn asked_of(
    alloc: Global,
    rule: &On,
    place: usize,
    names: &mut FieldNames,
) -> Result<Asked, AllocError>
    ensures rule { IfOk result (λ asked. asked.rule ≡ place) }
    ensures fields { IfOk result (λ asked. HasFields names.new asked rule.now) }
    ensures grown { OnOk result (Extends names.old names.new) }
{
    let tests = test_places(alloc, rule.tests.as_slice(), names)?;
    let by_field = many_tests(alloc, rule.tests.as_slice(), tests.as_slice())?;
    let by = by_place(alloc, &rule.by, names)?;
    Ok(Asked {
        rule: place,
        tests,
        by_field,
        by,
    })
}

/// The tests field by field, if there are many.
fn many_tests(
    alloc: Global,
    tests: &[Test],
    places: &[usize],
) -> Result<Option<Vec<FieldTest>>, AllocError>
    requires { length places.now ≡ length tests.now }
    ensures { IfOk result (λ many. IfSome many (λ list. MeanTests list.items places.now tests.now)) }
{
    if tests.len() < MANY_TESTS {
        return Ok(None);
    }
    Ok(Some(by_field(alloc, tests, places)?))
}

/// For each test the place of its field.
fn test_places(
    alloc: Global,
    tests: &[Test],
    names: &mut FieldNames,
) -> Result<Vec<usize>, AllocError>
    ensures places { IfOk result (λ places. map (slice_get names.new) places.items ≡ map Some (tested_fields tests.now)) }
    ensures grown { OnOk result (Extends names.old names.new) }
{
    let mut places = Vec::with_capacity(alloc, tests.len())?;
    for test in tests {
        places.push(names.place(alloc, tested_field(test).bytes())?)?;
    }
    Ok(places)
}

/// The place of a field that may be named.
fn by_place(
    alloc: Global,
    by: &Option<Name>,
    names: &mut FieldNames,
) -> Result<Option<usize>, AllocError>
    ensures place { IfOk result (λ place. option_map (slice_get names.new) place ≡ option_map Some by.now) }
    ensures grown { OnOk result (Extends names.old names.new) }
{
    match by {
        Some(name) => Ok(Some(names.place(alloc, name.bytes())?)),
        None => Ok(None),
    }
}

/// The field that a test names.
pub fn tested_field(test: &Test) -> &Name
    ensures { result.now ≡ tested_field test.now }
{
    match test {
        Test::Is { field, .. } => field,
        Test::IsNot { field, .. } => field,
    }
}
