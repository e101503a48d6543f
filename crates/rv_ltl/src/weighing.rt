//! The weight of a formula, from its code and what is known of its names.

ghost use Rattle.std.specs.Prelude.{◌≡◌, ◌<◌, IfOk, reverse};
ghost use Rattle.rv_ltl.specs.inner.Machine.{defs, one_step, two_step, stepped, computed};
ghost use Rattle.rv_ltl.specs.inner.Weights.{one_weight, two_weights, weights_by, weight_at, known_at};

use crate::definitions::Definition;
use crate::token::{Binary, CodeStep};
use crate::uses::index;
use crate::weight::{Weight, one_weight, two_weights};
use std::alloc::{AllocError, Global};

/// What is known of the definition at this place.
pub fn weight_of_name(weights: &[Weight], place: usize) -> Weight
    ensures { result ≡ known_at weights.now place }
{
    if place < weights.len() {
        weights[place]
    } else {
        Weight::Open
    }
}

fn weight_at(definitions: &[Definition], weights: &[Weight], name: usize) -> Weight
    ensures { result ≡ weight_at (defs definitions.now) weights.now name }
{
    match index(definitions, name) {
        Some(place) => weight_of_name(weights, place),
        None => Weight::Is(1),
    }
}

fn one_step(stack: &mut Vec<Weight>) -> Result<(), AllocError>
    ensures { IfOk result (λ _. reverse stack.new.items ≡ one_step one_weight (reverse stack.old.items)) }
{
    match stack.pop() {
        Some(operand) => {
            stack.push(one_weight(operand))?;
            Ok(())
        }
        None => Ok(()),
    }
}

fn two_step(stack: &mut Vec<Weight>, op: Binary) -> Result<(), AllocError>
    ensures { IfOk result (λ _. reverse stack.new.items ≡ two_step (two_weights op) (reverse stack.old.items)) }
{
    let Some(right) = stack.pop() else {
        return Ok(());
    };
    match stack.pop() {
        Some(left) => {
            stack.push(two_weights(op, left, right))?;
            Ok(())
        }
        None => Ok(()),
    }
}

fn step(
    definitions: &[Definition],
    weights: &[Weight],
    stack: &mut Vec<Weight>,
    step: CodeStep,
) -> Result<(), AllocError>
    ensures { IfOk result (λ _. reverse stack.new.items ≡ stepped (weights_by (weight_at (defs definitions.now) weights.now)) step (reverse stack.old.items)) }
{
    match step {
        CodeStep::True => {
            stack.push(Weight::Is(1))?;
            Ok(())
        }
        CodeStep::False => {
            stack.push(Weight::Is(1))?;
            Ok(())
        }
        CodeStep::Name(name) => {
            stack.push(weight_at(definitions, weights, name))?;
            Ok(())
        }
        CodeStep::Unary(_) => one_step(stack),
        CodeStep::Binary(op) => two_step(stack, op),
    }
}

/// The weight of the formula.
pub fn weigh(
    alloc: Global,
    definitions: &[Definition],
    weights: &[Weight],
    code: &[CodeStep],
) -> Result<Weight, AllocError>
    ensures { IfOk result (λ w. w ≡ computed (weights_by (weight_at (defs definitions.now) weights.now)) code.now) }
{
    let mut stack = Vec::new(alloc);
    'code: for one in code {
        step(definitions, weights, &mut stack, *one)?;
    }
    match stack.pop() {
        Some(weight) => Ok(weight),
        None => Ok(Weight::Is(1)),
    }
}
