//! Rules without what only routing needs, so that no other field of a line is looked up than those of tests.
ghost use Rattle.std.specs.Prelude.{◌≡◌, map, IfOk};
ghost use Rattle.rv_matches.specs.RuleLines.{without_by};

use rv_bind::{On, Test};
use rv_model::Name;
use std::alloc::{AllocError, Global};

/// The same test.
fn test_of(alloc: Global, test: &Test) -> Result<Test, AllocError>
    ensures { IfOk result (λ copy. copy ≡ test.now) }
{
    match test {
        Test::Is { field, value } => Ok(Test::Is {
            field: Name::new(alloc, field.bytes())?,
            value: Name::new(alloc, value.bytes())?,
        }),
        Test::IsNot { field, value } => Ok(Test::IsNot {
            field: Name::new(alloc, field.bytes())?,
            value: Name::new(alloc, value.bytes())?,
        }),
    }
}

/// The same tests.
fn tests_of(alloc: Global, tests: &[Test]) -> Result<Vec<Test>, AllocError>
    ensures { IfOk result (λ list. list.items ≡ tests.now) }
{
    let mut list = Vec::with_capacity(alloc, tests.len())?;
    for test in tests {
        list.push(test_of(alloc, test)?)?;
    }
    Ok(list)
}

/// The rule on the same event with the same tests, by no field.
fn asked_rule(alloc: Global, rule: &On) -> Result<On, AllocError>
    ensures { IfOk result (λ asked. asked ≡ without_by rule.now) }
{
    Ok(On {
        monitor: rule.monitor,
        event: Name::new(alloc, rule.event.bytes())?,
        by: None,
        tests: tests_of(alloc, rule.tests.as_slice())?,
        hit: rule.hit,
    })
}

/// Each rule without its field.
pub(crate) fn asked_rules(alloc: Global, rules: &[On]) -> Result<Vec<On>, AllocError>
    ensures { IfOk result (λ list. list.items ≡ map without_by rules.now) }
{
    let mut list = Vec::with_capacity(alloc, rules.len())?;
    for rule in rules {
        list.push(asked_rule(alloc, rule)?)?;
    }
    Ok(list)
}
