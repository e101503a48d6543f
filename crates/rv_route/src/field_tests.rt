//! The tests of a rule field by field, so that a line costs no more for a field that is tested often.
ghost use Rattle.std.specs.Prelude.{◌≡◌, ℕ, true, List, length, bytes_eq, option_copied, IfOk, OnOk, if◌then◌else◌};
ghost use Rattle.rv_route.specs.Asking.{has_value};
ghost use Rattle.rv_route.specs.FieldTests.{passes, is_forbidden, test_holds, MeanTests};
ghost use Rattle.rv_route.specs.inner.Narrowing.{IsNarrowed, HasTestMore};

use crate::asking::has_value;
use rv_bind::Test;
use rv_model::Name;
use std::alloc::{AllocError, Global};
use std::collections::{BTreeMap, BTreeSet};

/// All tests of a rule on one field: at most one value is wanted, and others are forbidden. No values that are chosen
/// make an ordered set slow.
#[derive(Drop)]
pub(crate) struct FieldTest {
    /// The place of the field among the event's.
    pub(crate) place: usize,
    pub(crate) wanted: Option<Name>,
    pub(crate) forbidden: BTreeSet<Vec<u8>>,
}

/// Forbids a value too.
fn forbid(alloc: Global, forbidden: &mut BTreeSet<Vec<u8>>, value: &[u8]) -> Result<(), AllocError>
    ensures { OnOk result ((other : List ℕ) → is_forbidden forbidden.new other ≡ (if bytes_eq value.now other then true else is_forbidden forbidden.old other)) }
{
    let key = Vec::from_slice(alloc, value)?;
    forbidden.insert(key)?;
    Ok(())
}

impl FieldTest {
    /// The field has to have this value too. Of two different ones the first is forbidden, so that none passes.
    fn want(&mut self, alloc: Global, value: &[u8]) -> Result<(), AllocError>
        ensures { OnOk result (IsNarrowed self.old (has_value value.now) self.new) }
    {
        let Some(wanted) = &self.wanted else {
            self.wanted = Some(Name::new(alloc, value)?);
            return Ok(());
        };
        if has_value(wanted.bytes(), value) {
            return Ok(());
        }
        forbid(alloc, &mut self.forbidden, wanted.bytes())
    }

    /// One more test of the field.
    fn narrow(&mut self, alloc: Global, test: &Test) -> Result<(), AllocError>
        ensures { OnOk result (IsNarrowed self.old (test_holds test.now) self.new) }
    {
        match test {
            Test::Is { value, .. } => self.want(alloc, value.bytes()),
            Test::IsNot { value, .. } => forbid(alloc, &mut self.forbidden, value.bytes()),
        }
    }

    /// Whether what the field has passes.
    pub(crate) fn passes(&self, found: Option<&[u8]>) -> bool
        ensures { result ≡ passes self.now (option_copied found.entry) }
    {
        let Some(found) = found else {
            return false;
        };
        if let Some(wanted) = &self.wanted {
            if !has_value(found, wanted.bytes()) {
                return false;
            }
        }
        !self.forbidden.contains(found)
    }
}

/// One more test, whose field may be tested already: then `known` tells where, or it stands twice.
fn add(
    alloc: Global,
    list: &mut Vec<FieldTest>,
    known: &mut BTreeMap<usize, usize>,
    place: usize,
    test: &Test,
) -> Result<(), AllocError>
    ensures { OnOk result (HasTestMore list.old.items place test.now list.new.items) }
{
    let at = match known.get(&place) {
        Some(at) => *at,
        None => list.len(),
    };
    if at < list.len() && list[at].place == place {
        return list[at].narrow(alloc, test);
    }
    let mut field = FieldTest {
        place,
        wanted: None,
        forbidden: BTreeSet::new(alloc),
    };
    field.narrow(alloc, test)?;
    known.insert(place, list.len())?;
    list.push(field)?;
    Ok(())
}

/// The tests field by field.
pub(crate) fn by_field(
    alloc: Global,
    tests: &[Test],
    places: &[usize],
) -> Result<Vec<FieldTest>, AllocError>
    requires { length places.now ≡ length tests.now }
    ensures { IfOk result (λ list. MeanTests list.items places.now tests.now) }
{
    let mut list = Vec::new(alloc);
    let mut known = BTreeMap::new(alloc);
    for test in 0..tests.len() {
        add(alloc, &mut list, &mut known, places[test], &tests[test])?;
    }
    Ok(list)
}
