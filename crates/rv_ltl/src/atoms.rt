//! The names that stand in reached definitions and are not defined, ascending: at most 32.

ghost use Rattle.std.specs.Prelude.{◌≡◌, ◌≤◌, ◌<◌, length, IfOk};
ghost use Rattle.rv_ltl.specs.inner.Machine.{defs, AllCoded};
ghost use Rattle.rv_ltl.specs.Atoms.{inserted};
ghost use Rattle.rv_ltl.specs.inner.Collected.{count_below, stands, is_free, step_into, code_into, def_into, atoms_from, Puts, Collects};

use crate::definitions::Definition;
use crate::token::CodeStep;
use crate::uses::index;
use std::alloc::{AllocError, Global};

/// How many numbers in front are below another.
fn count_below(numbers: &[usize], x: usize) -> usize
    ensures within { result ≤ length numbers.now }
    ensures is { result ≡ count_below x numbers.now }
{
    match numbers {
        [] => 0,
        [first, others @ ..] => {
            if *first < x {
                1 + count_below(others, x)
            } else {
                0
            }
        }
    }
}

fn stands(numbers: &[usize], x: usize) -> bool
    ensures { result ≡ stands x numbers.now }
{
    match numbers {
        [] => false,
        [first, others @ ..] => {
            if *first < x {
                stands(others, x)
            } else {
                *first == x
            }
        }
    }
}

fn is_free(definitions: &[Definition], name: usize) -> bool
    ensures { result ≡ is_free (defs definitions.now) name }
{
    match index(definitions, name) {
        Some(_) => false,
        None => true,
    }
}

/// Puts the number at its place, and says whether there was room.
fn put(out: &mut Vec<usize>, x: usize) -> Result<bool, AllocError>
    requires { length out.old.items ≤ 32 }
    ensures { IfOk result (λ fits. Puts (inserted x out.old.items) out.new.items fits) }
{
    if stands(out, x) {
        return Ok(true);
    }
    if out.len() == 32 {
        return Ok(false);
    }
    let place = count_below(out, x);
    out.insert(place, x)?;
    Ok(true)
}

fn put_step(
    definitions: &[Definition],
    out: &mut Vec<usize>,
    step: CodeStep,
) -> Result<bool, AllocError>
    requires { length out.old.items ≤ 32 }
    ensures { IfOk result (λ fits. Puts (step_into (is_free (defs definitions.now)) step out.old.items) out.new.items fits) }
{
    if let CodeStep::Name(name) = step {
        if is_free(definitions, name) {
            return put(out, name);
        }
    }
    Ok(true)
}

fn put_code(
    definitions: &[Definition],
    out: &mut Vec<usize>,
    code: &[CodeStep],
) -> Result<bool, AllocError>
    requires { length out.old.items ≤ 32 }
    ensures { IfOk result (λ fits. Puts (code_into (is_free (defs definitions.now)) code.now out.old.items) out.new.items fits) }
{
    'code: for step in code {
        let fits = put_step(definitions, out, *step)?;
        if !fits {
            return Ok(false);
        }
    }
    Ok(true)
}

/// Puts the names of the definition that are not defined, where it is flagged, and says whether there was room.
fn put_definition(
    definitions: &[Definition],
    flags: &[bool],
    out: &mut Vec<usize>,
    i: usize,
) -> Result<bool, AllocError>
    requires place { i < length definitions.now }
    requires few { length out.old.items ≤ 32 }
    requires coded { AllCoded definitions.now }
    ensures { IfOk result (λ fits. Puts (def_into (is_free (defs definitions.now)) (defs definitions.now) flags.now i out.old.items) out.new.items fits) }
{
    if i < flags.len() && flags[i] {
        return put_code(definitions, out, &definitions[i].code);
    }
    Ok(true)
}

/// The names of the flagged definitions that are not defined, ascending; none where there are more than 32.
pub fn atoms(
    alloc: Global,
    definitions: &[Definition],
    flags: &[bool],
) -> Result<Option<Vec<usize>>, AllocError>
    requires { AllCoded definitions.now }
    ensures { IfOk result (λ atoms. Collects (atoms_from (is_free (defs definitions.now)) (defs definitions.now) flags.now (length definitions.now)) atoms) }
{
    let mut out = Vec::new(alloc);
    for i in 0..definitions.len() {
        let fits = put_definition(definitions, flags, &mut out, i)?;
        if !fits {
            return Ok(None);
        }
    }
    Ok(Some(out))
}
