//! Which definitions a definition uses.

ghost use Rattle.std.specs.Prelude.{◌≡◌, ◌<◌, ℕ, length, IfOk, false};
ghost use Rattle.rv_ltl.specs.inner.Machine.{defs, AllCoded};
ghost use Rattle.rv_ltl.specs.inner.Weights.{index_of, IsDistinct};
ghost use Rattle.rv_ltl.specs.inner.Reached.{flag_at, IsRow, AreUses, IsNameStep};
ghost use Rattle.rv_ltl.specs.inner.Uses.{flagged};

use crate::definitions::Definition;
use crate::token::CodeStep;
use std::alloc::{AllocError, Global};

/// The place of the first definition of the name.
pub fn index(definitions: &[Definition], name: usize) -> Option<usize>
    ensures { result ≡ index_of (defs definitions.now) name }
{
    for i in 0..definitions.len() {
        if definitions[i].name == name {
            return Some(i);
        }
    }
    None
}

/// So many flags, none set.
pub fn all_false(alloc: Global, n: usize) -> Result<Vec<bool>, AllocError>
    ensures each { IfOk result (λ v. length v.items ≡ n) }
    ensures none { IfOk result (λ v. (i : ℕ) → flag_at v.items i ≡ false) }
{
    let mut flags = Vec::new(alloc);
    for _ in 0..n {
        flags.push(false)?;
    }
    Ok(flags)
}

/// Flags the definition that the step names.
fn flag(definitions: &[Definition], flags: &mut Vec<bool>, step: CodeStep)
    requires { length flags.old.items ≡ length definitions.now }
    ensures { flags.new.items ≡ flagged (defs definitions.now) step flags.old.items }
{
    if let CodeStep::Name(name) = step {
        if let Some(place) = index(definitions, name) {
            if place < flags.len() {
                flags[place] = true;
            }
        }
    }
}

/// The definitions whose names stand in the code.
fn row(
    alloc: Global,
    definitions: &[Definition],
    code: &[CodeStep],
) -> Result<Vec<bool>, AllocError>
    requires { IsDistinct (defs definitions.now) }
    ensures { IfOk result (λ v. IsRow (defs definitions.now) code.now v.items) }
{
    let mut flags = all_false(alloc, definitions.len())?;
    'code: for step in code {
        flag(definitions, &mut flags, *step);
    }
    Ok(flags)
}

/// For each definition, which definitions its formula names.
pub fn uses(alloc: Global, definitions: &[Definition]) -> Result<Vec<Vec<bool>>, AllocError>
    requires distinct { IsDistinct (defs definitions.now) }
    requires coded { AllCoded definitions.now }
    ensures { IfOk result (λ v. AreUses (defs definitions.now) v.items (length definitions.now)) }
{
    let mut rows = Vec::new(alloc);
    'definitions: for definition in definitions {
        rows.push(row(alloc, definitions, &definition.code)?)?;
    }
    Ok(rows)
}
