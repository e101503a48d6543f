//! The formula that a name stands for, written out; its weight is known to be small by then.

ghost use Rattle.std.specs.Prelude.{◌≡◌, ◌≤◌, ◌<◌, ◌∷◌, length, IfOk, map, reverse};
ghost use Rattle.rv_model.specs.Formulas.{ltl};
ghost use Rattle.rv_ltl.specs.inner.Machine.{defs, AllCoded, one_step, two_step, stepped};
ghost use Rattle.rv_ltl.specs.Atoms.{place_of, one_of, two_of};
ghost use Rattle.rv_ltl.specs.inner.Collected.{built, ltls};

use crate::definitions::Definition;
use crate::token::{Binary, CodeStep, Unary};
use crate::uses::index;
use rv_model::Formula;
use std::alloc::{AllocError, Global};

fn place(atoms: &[usize], name: usize) -> u8
    requires { length atoms.now ≤ 32 }
    ensures within { result ≤ length atoms.now }
    ensures is { result ≡ place_of atoms.now name }
{
    match atoms {
        [] => 0,
        [first, others @ ..] => {
            if *first == name {
                0
            } else {
                1 + place(others, name)
            }
        }
    }
}

fn one(op: Unary, operand: Box<Formula>) -> Formula
    ensures { ltl result ≡ one_of op (ltl operand.value) }
{
    match op {
        Unary::Always => Formula::Always(operand),
        Unary::Eventually => Formula::Eventually(operand),
        Unary::Next => Formula::Next(operand),
        Unary::Not => Formula::Not(operand),
    }
}

fn two(op: Binary, left: Box<Formula>, right: Box<Formula>) -> Formula
    ensures { ltl result ≡ two_of op (ltl left.value) (ltl right.value) }
{
    match op {
        Binary::And => Formula::And(left, right),
        Binary::Or => Formula::Or(left, right),
        Binary::Until => Formula::Until(left, right),
        Binary::Release => Formula::Release(left, right),
        Binary::WeakUntil => Formula::WeakUntil(left, right),
        Binary::Imply => Formula::Imply(left, right),
        Binary::Equivalent => Formula::Equivalent(left, right),
    }
}

fn one_step(alloc: Global, stack: &mut Vec<Formula>, op: Unary) -> Result<(), AllocError>
    ensures { IfOk result (λ _. reverse (map ltl stack.new.items) ≡ one_step (one_of op) (reverse (map ltl stack.old.items))) }
{
    match stack.pop() {
        Some(operand) => {
            let operand = Box::new(alloc, operand)?;
            stack.push(one(op, operand))?;
            Ok(())
        }
        None => Ok(()),
    }
}

fn two_step(alloc: Global, stack: &mut Vec<Formula>, op: Binary) -> Result<(), AllocError>
    ensures { IfOk result (λ _. reverse (map ltl stack.new.items) ≡ two_step (two_of op) (reverse (map ltl stack.old.items))) }
{
    let Some(right) = stack.pop() else {
        return Ok(());
    };
    match stack.pop() {
        Some(left) => {
            let left = Box::new(alloc, left)?;
            let right = Box::new(alloc, right)?;
            stack.push(two(op, left, right))?;
            Ok(())
        }
        None => Ok(()),
    }
}

fn put(stack: &mut Vec<Formula>, formula: Formula) -> Result<(), AllocError>
    ensures { IfOk result (λ _. reverse (map ltl stack.new.items) ≡ ltl formula ∷ reverse (map ltl stack.old.items)) }
{
    stack.push(formula)?;
    Ok(())
}

/// Runs one step of a formula's code, in which definitions stand in one another at most so deep.
#[cycle(build)]
fn step(
    alloc: Global,
    definitions: &[Definition],
    atoms: &[usize],
    depth: usize,
    stack: &mut Vec<Formula>,
    step: CodeStep,
) -> Result<(), AllocError>
    requires few { length atoms.now ≤ 32 }
    requires coded { AllCoded definitions.now }
    ensures { IfOk result (λ _. reverse (map ltl stack.new.items) ≡ stepped (ltls (built (defs definitions.now) atoms.now depth)) step (reverse (map ltl stack.old.items))) }
{
    match step {
        CodeStep::True => put(stack, Formula::True),
        CodeStep::False => put(stack, Formula::False),
        CodeStep::Name(name) => {
            let formula = build(alloc, definitions, atoms, depth, name)?;
            put(stack, formula)
        }
        CodeStep::Unary(op) => one_step(alloc, stack, op),
        CodeStep::Binary(op) => two_step(alloc, stack, op),
    }
}

/// The formula that the name stands for, in which definitions stand in one another at most so deep.
#[cycle(build)]
#[tactic(auto, unfolding(crate::specs::inner::Collected::built))]
pub fn build(
    alloc: Global,
    definitions: &[Definition],
    atoms: &[usize],
    depth: usize,
    name: usize,
) -> Result<Formula, AllocError>
    requires few { length atoms.now ≤ 32 }
    requires coded { AllCoded definitions.now }
    ensures { IfOk result (λ f. ltl f ≡ built (defs definitions.now) atoms.now depth name) }
{
    let Some(first) = index(definitions, name) else {
        return Ok(Formula::Atom(place(atoms, name)));
    };
    if depth == 0 || definitions.len() <= first {
        return Ok(Formula::True);
    }
    let code = definitions[first].code.as_slice();
    let mut stack = Vec::new(alloc);
    'code: for one in code {
        step(alloc, definitions, atoms, depth - 1, &mut stack, *one)?;
    }
    match stack.pop() {
        Some(formula) => Ok(formula),
        None => Ok(Formula::True),
    }
}
