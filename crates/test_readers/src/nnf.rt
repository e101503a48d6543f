//! The parts of rules that double their operands, and of rules of one part.
ghost use Rattle.std.specs.Prelude.{◌≤◌};
ghost use Rattle.rv_model.specs.Weights.{weight};

use rv_ltl::read_ltl;
use rv_model::Rule;
use rv_nnf::{Part, normal};
use rv_reference::worked::has_atoms_below;
use rv_text::Refused;
use std::alloc::Global;
use std::process::Abort;
use std::test::Fail;

/// How many parts the rule has, and whether the last one is the rule itself as a label, and the release of the first two.
fn told(rt: &impl Abort, alloc: Global, rule: &Rule) -> Result<(usize, bool, bool), Refused>
    requires { weight rule.now.formula ≤ 1024 }
{
    assert!(rt; has_atoms_below(32, &rule.formula));
    let parts = normal(alloc, &rule.formula)?.parts;
    let (label, release) = match parts.last() {
        Some(Part::Label(label)) => (label.equals(&rule.formula), false),
        Some(Part::Release(left, right)) => (false, *left == 0 && *right == 1),
        _ => (false, false),
    };
    Ok((parts.len(), label, release))
}

#[test]
fn operands_share_their_parts(rt: HostRuntime) -> Result<(), Fail> {
    // `A`, `not A` and `next` of each; three parts for a form or its denial; the whole is not denied
    let shared = 4 + 6 * 6 + 3;
    let cases = [
        (
            "RULE = ((((((next A equivalent A) equivalent A) equivalent A) equivalent A) equivalent A) equivalent A) equivalent A",
            (shared, false, false),
        ),
        (
            "RULE = ((((B equivalent A) equivalent A) equivalent A) equivalent A) equivalent A",
            (1, true, false),
        ),
        ("RULE = A weak_until B", (3, false, true)),
    ];
    for (text, wanted) in cases {
        let rule = read_ltl(rt.alloc(), text.as_bytes())?;
        assert!(rt; told(&rt, rt.alloc(), &rule)? == wanted, "at {text}");
    }
    Ok(())
}
