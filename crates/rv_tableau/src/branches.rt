//! Branch numbers, which are kept up to 4,097: more than any set may have.
ghost use Rattle.std.specs.Prelude.{◌≡◌, ◌<◌, ◌≤◌, ◌+◌, ◌*◌, ℕ, min, length, slice_index, IfOk, EachIndex};
ghost use Rattle.rv_model.specs.Formulas.{ltl};
ghost use Rattle.rv_nnf.specs.Parts.{OperandsBelow, part_value_at};
ghost use Rattle.rv_nnf.specs.Views.{part_value, part_values};
ghost use Rattle.rv_tableau.specs.Branches.{piece_branches, label_branches as branches_of_label, part_branches, branch_number as branch_number_of};
ghost use Rattle.rv_tableau.specs.inner.Covering.{AreBranchNumbers};

use rv_model::{Formula, has_bit};
use rv_nnf::Part;
use std::alloc::{AllocError, Global};

/// The most branches that a set may have.
pub const MOST_BRANCHES: u32 = 4096;

const CAP: u32 = MOST_BRANCHES + 1;

fn sum(a: u32, b: u32) -> u32
    requires a_small { a ≤ 4097 }
    requires b_small { b ≤ 4097 }
    ensures { result ≡ min (a + b) 4097 }
{
    (a + b).min(CAP)
}

fn product(a: u32, b: u32) -> u32
    requires a_small { a ≤ 4097 }
    requires b_small { b ≤ 4097 }
    ensures { result ≡ min (a * b) 4097 }
{
    (a * b).min(CAP)
}

fn label_branches(label: &Formula) -> u32
    ensures { result ≡ branches_of_label (ltl label.now) }
{
    match label {
        Formula::False => 0,
        _ => 1,
    }
}

/// The branch number of a part, from those of the parts before it.
fn of_part(below: &[u32], part: &Part) -> u32
    requires small { EachIndex below.now (λ k. slice_index below.now k ≤ 4097) }
    requires operands { OperandsBelow (length below.now) (part_value part.now) }
    ensures { result ≡ min (piece_branches (slice_index below.now) (part_value part.now)) 4097 }
{
    match part {
        Part::Label(f) => label_branches(f),
        Part::Next(_) => 1,
        Part::And(i, j) => product(below[*i as usize], below[*j as usize]),
        Part::Or(i, j) => sum(below[*i as usize], below[*j as usize]),
        Part::Until(i, j) => sum(below[*j as usize], below[*i as usize]),
        Part::Release(i, j) => sum(
            product(below[*i as usize], below[*j as usize]),
            below[*j as usize],
        ),
    }
}

/// The branch number of each part, up to the cap.
pub fn branch_numbers(alloc: Global, parts: &[Part]) -> Result<Vec<u32>, AllocError>
    requires { (k : ℕ) → OperandsBelow k (part_value_at (part_values parts.now) k) }
    ensures { IfOk result (λ v. AreBranchNumbers (part_values parts.now) v.items) }
{
    let mut out = Vec::new(alloc);
    for part in parts {
        let next = of_part(&out, part);
        out.push(next)?;
    }
    Ok(out)
}

/// The branch number of a set, up to the cap.
#[tactic(auto, using(crate::proofs::BranchCount::branches_next, crate::proofs::BranchCount::capped_next, crate::proofs::BranchCount::number_at))]
pub fn branch_number(parts: &[Part], numbers: &[u32], set: u64) -> u32
    requires few { length parts.now ≤ 64 }
    requires numbers { AreBranchNumbers (part_values parts.now) numbers.now }
    ensures { result ≡ min (branch_number_of (part_values parts.now) set) 4097 }
{
    let mut out = 1;
    for k in 0..parts.len() {
        if has_bit(set, k) {
            out = product(out, numbers[k]);
        }
    }
    out
}
