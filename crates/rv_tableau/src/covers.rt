//! The cover of a part and of a set of parts.
//! Covers are made part by part, each once, and none that is longer than the branch number of the set that is asked for:
//! a factor 0 may stand beside a factor of 2^40.
ghost use Rattle.std.specs.Prelude.{◌≡◌, ◌<◌, ◌≤◌, ◌++◌, ℕ, length, IfOk, OnOk};
ghost use Rattle.rv_model.specs.Formulas.{ltl};
ghost use Rattle.rv_nnf.specs.Parts.{OperandsBelow, part_value_at};
ghost use Rattle.rv_nnf.specs.Views.{part_value, part_values};
ghost use Rattle.rv_tableau.specs.inner.Covering.{AreBranchNumbers, AreCovers, IsCover, pairs_at, cover_alone, cover_from, operands_of};
ghost use Rattle.rv_tableau.specs.Cover.{label_cover as cover_of_label, cover_of};

use crate::branches::branch_number;
use crate::pairs::{Pair, add_joined, label_pair, later_pair, unions};
use rv_model::{Formula, has_bit};
use rv_nnf::Part;
use std::alloc::{AllocError, Global};

/// The cover of the label of part k.
fn label_cover(alloc: Global, k: u8, label: &Formula) -> Result<Vec<Pair>, AllocError>
    requires { k < 64 }
    ensures { IfOk result (λ v. v.items ≡ cover_of_label k (ltl label.now)) }
{
    let mut out = Vec::new(alloc);
    match label {
        Formula::True => out.push(Pair { labels: 0, next: 0 })?,
        Formula::False => {}
        _ => out.push(label_pair(k))?,
    }
    Ok(out)
}

/// Appends the pairs.
pub fn add_all(out: &mut Vec<Pair>, pairs: &[Pair]) -> Result<(), AllocError>
    ensures { OnOk result (out.new.items ≡ out.old.items ++ pairs.now) }
{
    for p in pairs {
        out.push(*p)?;
    }
    Ok(())
}

/// The operands of a part that has two.
fn operands(part: &Part) -> Option<(u8, u8)>
    ensures { result ≡ operands_of (part_value part.now) }
{
    match part {
        Part::Label(_) | Part::Next(_) => None,
        Part::And(i, j) | Part::Or(i, j) | Part::Until(i, j) | Part::Release(i, j) => Some((
            *i, *j,
        )),
    }
}

/// The cover of part k, which has two operands, from theirs.
fn cover_from(
    alloc: Global,
    k: u8,
    part: &Part,
    left: &[Pair],
    right: &[Pair],
) -> Result<Vec<Pair>, AllocError>
    requires { k < 64 }
    ensures { IfOk result (λ v. v.items ≡ cover_from k (part_value part.now) left.now right.now) }
{
    let mut out = Vec::new(alloc);
    match part {
        Part::Label(_) | Part::Next(_) => {}
        Part::And(_, _) => out = unions(alloc, left, right)?,
        Part::Or(_, _) => {
            add_all(&mut out, left)?;
            add_all(&mut out, right)?;
        }
        Part::Until(_, _) => {
            add_all(&mut out, right)?;
            add_joined(&mut out, later_pair(k), left)?;
        }
        Part::Release(_, _) => {
            out = unions(alloc, left, right)?;
            add_joined(&mut out, later_pair(k), right)?;
        }
    }
    Ok(out)
}

/// The cover of part k, which has not two operands.
fn cover_alone(alloc: Global, k: u8, part: &Part) -> Result<Vec<Pair>, AllocError>
    requires place { k < 64 }
    requires operands { OperandsBelow k (part_value part.now) }
    ensures { IfOk result (λ v. v.items ≡ cover_alone k (part_value part.now)) }
{
    let mut out = Vec::new(alloc);
    match part {
        Part::Label(label) => return label_cover(alloc, k, label),
        Part::Next(i) => out.push(later_pair(*i))?,
        _ => {}
    }
    Ok(out)
}

/// The pairs of a cover that was made.
fn pairs_of(covers: &[Vec<Pair>], k: usize) -> &[Pair]
    requires { k < length covers.now }
    ensures { result.now ≡ pairs_at covers.now k }
{
    covers[k].as_slice()
}

/// The cover of part k, from those of the parts before it. One of more than `most` pairs is left empty.
fn next_cover(
    alloc: Global,
    parts: &[Part],
    numbers: &[u32],
    most: u32,
    covers: &[Vec<Pair>],
    k: usize,
) -> Result<Vec<Pair>, AllocError>
    requires few { length parts.now ≤ 64 }
    requires below { (k : ℕ) → OperandsBelow k (part_value_at (part_values parts.now) k) }
    requires numbers { AreBranchNumbers (part_values parts.now) numbers.now }
    requires covers { AreCovers (part_values parts.now) numbers.now most covers.now }
    requires count { length covers.now ≡ k }
    requires place { k < length parts.now }
    ensures { IfOk result (λ v. IsCover (part_values parts.now) numbers.now most k v.items) }
{
    if numbers[k] == 0 || most < numbers[k] {
        return Ok(Vec::new(alloc));
    }
    let part = &parts[k];
    match operands(part) {
        Some((i, j)) => {
            let left = pairs_of(covers, i as usize);
            let right = pairs_of(covers, j as usize);
            cover_from(alloc, k as u8, part, left, right)
        }
        None => cover_alone(alloc, k as u8, part),
    }
}

/// The covers of all parts, each made once, by the parts' numbers. Those of more than `most` pairs are left empty.
fn part_covers(
    alloc: Global,
    parts: &[Part],
    numbers: &[u32],
    most: u32,
) -> Result<Vec<Vec<Pair>>, AllocError>
    requires few { length parts.now ≤ 64 }
    requires below { (k : ℕ) → OperandsBelow k (part_value_at (part_values parts.now) k) }
    requires numbers { AreBranchNumbers (part_values parts.now) numbers.now }
    ensures all { IfOk result (λ covers. length covers.items ≡ length parts.now) }
    ensures covers { IfOk result (λ covers. AreCovers (part_values parts.now) numbers.now most covers.items) }
{
    let mut covers = Vec::new(alloc);
    for k in 0..parts.len() {
        let next = next_cover(alloc, parts, numbers, most, &covers, k)?;
        covers.push(next)?;
    }
    Ok(covers)
}

/// The cover of a set of parts.
pub fn set_cover(
    alloc: Global,
    parts: &[Part],
    numbers: &[u32],
    set: u64,
) -> Result<Vec<Pair>, AllocError>
    requires few { length parts.now ≤ 64 }
    requires below { (k : ℕ) → OperandsBelow k (part_value_at (part_values parts.now) k) }
    requires numbers { AreBranchNumbers (part_values parts.now) numbers.now }
    ensures { IfOk result (λ v. v.items ≡ cover_of (part_values parts.now) set) }
{
    let mut out = Vec::new(alloc);
    let most = branch_number(parts, numbers, set);
    if most == 0 {
        return Ok(out);
    }
    let covers = part_covers(alloc, parts, numbers, most)?;
    out.push(Pair { labels: 0, next: 0 })?;
    for k in 0..parts.len() {
        if has_bit(set, k) {
            out = unions(alloc, &out, pairs_of(&covers, k))?;
        }
    }
    Ok(out)
}
