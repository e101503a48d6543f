//! Sets of parts as masks, and pairs of a set of labels and a set of parts.
ghost use Rattle.std.specs.Prelude.{◌≡◌, ◌<◌, ◌≤◌, ◌^◌, ◌++◌, map, IfOk, OnOk};
ghost use Rattle.rv_tableau.specs.Pairs.{join, label_alone, later_alone, unions as all_unions, same_pair, is_one_of as is_one_of};

use std::alloc::{AllocError, Global};

/// What a node asks, both as sets of part numbers.
#[derive(Clone, Copy, Drop)]
pub struct Pair {
    /// Labels that the first letter makes true.
    pub labels: u64,
    /// Parts that hold on the rest.
    pub next: u64,
}

/// The set of one part.
pub fn bit(k: u8) -> u64
    requires { k < 64 }
    ensures { result ≡ 2 ^ k }
{
    1 << k
}

/// The pair of one label.
pub fn label_pair(k: u8) -> Pair
    requires { k < 64 }
    ensures { result ≡ label_alone k }
{
    Pair {
        labels: bit(k),
        next: 0,
    }
}

/// The pair of one part, on the rest.
pub fn later_pair(k: u8) -> Pair
    requires { k < 64 }
    ensures { result ≡ later_alone k }
{
    Pair {
        labels: 0,
        next: bit(k),
    }
}

/// Whether the two are the same.
pub fn same(p: Pair, q: Pair) -> bool
    ensures { result ≡ same_pair p q }
{
    p.labels == q.labels && p.next == q.next
}

/// Whether the pair is one of them.
pub fn is_one_of(p: Pair, pairs: &[Pair]) -> bool
    ensures { result ≡ is_one_of p pairs.now }
{
    for q in pairs {
        if same(p, *q) {
            return true;
        }
    }
    false
}

/// Appends the pairs of `b`, with `p` joined to each.
pub fn add_joined(out: &mut Vec<Pair>, p: Pair, b: &[Pair]) -> Result<(), AllocError>
    ensures { OnOk result (out.new.items ≡ out.old.items ++ map (join p) b.now) }
{
    for q in b {
        out.push(Pair {
            labels: p.labels | q.labels,
            next: p.next | q.next,
        })?;
    }
    Ok(())
}

/// All unions of a pair of `a` with a pair of `b`.
pub fn unions(alloc: Global, a: &[Pair], b: &[Pair]) -> Result<Vec<Pair>, AllocError>
    ensures { IfOk result (λ v. v.items ≡ all_unions a.now b.now) }
{
    let mut out = Vec::new(alloc);
    for p in a {
        add_joined(&mut out, *p, b)?;
    }
    Ok(out)
}
