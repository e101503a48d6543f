//! How many cubes a label's lists have, counted before any is made.
//! Both signs are counted in one walk, since an `equivalent` asks for both of both operands.
ghost use Rattle.std.specs.Prelude.{◌≡◌, ◌+◌, ◌*◌, ◌≤◌, ℕ, true, false, IsTrue, min};
ghost use Rattle.rv_model.specs.Formulas.{ltl};
ghost use Rattle.rv_labels.specs.Sizes.{size_of};

use rv_model::Formula;

/// A label with more cubes is kept as a formula.
pub const MOST_CUBES: u32 = 64;

/// No size is counted past this one.
const CAP: u32 = MOST_CUBES + 1;

/// The sizes of the lists of a label and of its negation, at most 65 each.
#[derive(Clone, Copy)]
struct Sizes {
    positive: u32,
    negative: u32,
}

/// The size of two lists, one after the other.
fn plus(left: u32, right: u32) -> u32
    requires left { left ≤ 65 }
    requires right { right ≤ 65 }
    ensures few { result ≤ 65 }
    ensures size { (m n : ℕ) → left ≡ min 65 m → right ≡ min 65 n → result ≡ min 65 (m + n) }
{
    CAP.min(left + right)
}

/// The size of two joined lists.
fn times(left: u32, right: u32) -> u32
    requires left { left ≤ 65 }
    requires right { right ≤ 65 }
    ensures few { result ≤ 65 }
    ensures size { (m n : ℕ) → left ≡ min 65 m → right ≡ min 65 n → result ≡ min 65 (m * n) }
{
    CAP.min(left * right)
}

impl Sizes {
    /// Those of the negation.
    fn negated(self) -> Sizes
        ensures positive { result.positive ≡ self.negative }
        ensures negative { result.negative ≡ self.positive }
    {
        Sizes {
            positive: self.negative,
            negative: self.positive,
        }
    }

    /// Those of a disjunction.
    fn or(self, other: Sizes) -> Sizes
        requires few { (self.positive ≤ 65) × (self.negative ≤ 65) }
        requires other { (other.positive ≤ 65) × (other.negative ≤ 65) }
        ensures positive { (m n : ℕ) → self.positive ≡ min 65 m → other.positive ≡ min 65 n → result.positive ≡ min 65 (m + n) }
        ensures negative { (m n : ℕ) → self.negative ≡ min 65 m → other.negative ≡ min 65 n → result.negative ≡ min 65 (m * n) }
        ensures few { (result.positive ≤ 65) × (result.negative ≤ 65) }
    {
        Sizes {
            positive: plus(self.positive, other.positive),
            negative: times(self.negative, other.negative),
        }
    }
}

/// The sizes of a label's lists.
fn count(label: &Formula) -> Sizes
    ensures positive { result.positive ≡ min 65 (size_of (ltl label.now) true) }
    ensures negative { result.negative ≡ min 65 (size_of (ltl label.now) false) }
{
    match label {
        Formula::True => Sizes {
            positive: 1,
            negative: 0,
        },
        Formula::Atom(_) => Sizes {
            positive: 1,
            negative: 1,
        },
        Formula::Not(f) => count(f).negated(),
        Formula::And(f, g) => count(f).negated().or(count(g).negated()).negated(),
        Formula::Or(f, g) => count(f).or(count(g)),
        Formula::Imply(f, g) => count(f).negated().or(count(g)),
        Formula::Equivalent(f, g) => {
            let left = count(f);
            let right = count(g);
            Sizes {
                positive: plus(
                    times(left.positive, right.positive),
                    times(left.negative, right.negative),
                ),
                negative: plus(
                    times(left.positive, right.negative),
                    times(left.negative, right.positive),
                ),
            }
        }
        _ => Sizes {
            positive: 0,
            negative: 1,
        },
    }
}

/// The size of the list of a label or of its negation, at most 65.
pub fn size(label: &Formula, positive: bool) -> u32
    ensures { result ≡ min 65 (size_of (ltl label.now) positive) }
{
    let sizes = count(label);
    if positive {
        sizes.positive
    } else {
        sizes.negative
    }
}
