//! Tables of labels over all letters of two atoms, and labels whose lists would be huge.
ghost use Rattle.std.specs.Prelude.{◌<◌, IfOk, IsTrue};
ghost use Rattle.rv_model.specs.Formulas.{ltl};
ghost use Rattle.rv_model.specs.Labels.{IsLabel};

use rv_labels::{Cube, Masks};
use rv_ltl::read_ltl;
use rv_model::Formula;
use std::alloc::{AllocError, Global};
use std::process::Abort;
use std::test::Fail;

/// Whether the formula is a label.
fn is_label(formula: &Formula) -> bool
    ensures { IsTrue result → IsLabel (ltl formula.now) }
{
    match formula {
        Formula::True | Formula::False => true,
        Formula::Atom(atom) => *atom < 32,
        Formula::Not(f) => is_label(f),
        Formula::And(f, g) | Formula::Or(f, g) | Formula::Imply(f, g) | Formula::Equivalent(f, g) =>
            { is_label(f) && is_label(g) }
        Formula::Next(_)
        | Formula::Always(_)
        | Formula::Eventually(_)
        | Formula::Until(_, _)
        | Formula::Release(_, _)
        | Formula::WeakUntil(_, _) => false,
    }
}

/// The masks of the label that a text is.
fn masks_of(rt: &impl Abort, alloc: Global, text: &[u8]) -> Result<Masks, Fail> {
    let rule = read_ltl(alloc, text)?;
    assert!(rt; is_label(&rule.formula));
    Ok(Masks::new(alloc, &rule.formula)?)
}

/// Whether the masks hold on just these of the four letters of two atoms.
fn holds_on(masks: &Masks, letters: [bool; 4]) -> bool {
    masks.holds(0) == letters[0]
        && masks.holds(1) == letters[1]
        && masks.holds(2) == letters[2]
        && masks.holds(3) == letters[3]
}

fn cube(need: u32, forbid: u32) -> Cube {
    Cube { need, forbid }
}

#[test]
fn small_labels_have_these_cubes(rt: HostRuntime) -> Result<(), Fail> {
    const CASES: &[(&str, &[Cube], [bool; 4])] = &[
        (
            "RULE = true",
            &[Cube { need: 0, forbid: 0 }],
            [true, true, true, true],
        ),
        ("RULE = false", &[], [false, false, false, false]),
        (
            "RULE = A imply not B",
            &[Cube { need: 0, forbid: 1 }, Cube { need: 0, forbid: 2 }],
            [true, true, true, false],
        ),
        (
            "RULE = (A or B) and not A",
            &[Cube { need: 2, forbid: 1 }],
            [false, false, true, false],
        ),
        (
            "RULE = A equivalent B",
            &[Cube { need: 3, forbid: 0 }, Cube { need: 0, forbid: 3 }],
            [true, false, false, true],
        ),
        (
            "RULE = not (A equivalent B)",
            &[Cube { need: 1, forbid: 2 }, Cube { need: 2, forbid: 1 }],
            [false, true, true, false],
        ),
    ];
    for &(text, cubes, letters) in CASES {
        let masks = masks_of(&rt, rt.alloc(), text.as_bytes())?;
        assert!(rt;
            masks.cubes() == Some(cubes) && holds_on(&masks, letters),
            "at {text}"
        );
    }
    Ok(())
}

/// A chain of `and` over so many disjunctions of two atoms, between two texts.
fn disjunctions(
    alloc: Global,
    front: &[u8],
    times: usize,
    back: &[u8],
) -> Result<Vec<u8>, AllocError> {
    let mut text = Vec::new(alloc);
    text.extend_from_slice(front)?;
    text.extend_from_slice(b"(A or B)")?;
    for _ in 1..times {
        text.extend_from_slice(b" and (A or B)")?;
    }
    text.extend_from_slice(back)?;
    Ok(text)
}

/// How many cubes there are, if they are kept.
fn count_of(masks: &Masks) -> Option<usize> {
    masks.cubes().map(|cubes| cubes.len())
}

#[test]
fn what_is_joined_to_nothing_is_never_made(rt: HostRuntime) -> Result<(), Fail> {
    const SOME_ATOM: [bool; 4] = [false, true, true, true];
    const CASES: &[(&[u8], usize, &[u8], Option<usize>, [bool; 4])] = &[
        (b"RULE = ", 6, b"", Some(64), SOME_ATOM),
        (b"RULE = ", 7, b"", None, SOME_ATOM),
        (b"RULE = ", 200, b" and false", Some(0), [false; 4]),
        (
            b"RULE = (not (",
            40,
            b")) equivalent true",
            Some(40),
            [true, false, false, false],
        ),
    ];
    for &(front, times, back, count, letters) in CASES {
        let text = disjunctions(rt.alloc(), front, times, back)?;
        let masks = masks_of(&rt, rt.alloc(), &text)?;
        assert!(rt;
            count_of(&masks) == count && holds_on(&masks, letters),
            "at {times}"
        );
    }
    Ok(())
}

// So many times equivalent to another label, before an atom.
fn equivalents(alloc: Global, times: u16, with_atoms: bool) -> Result<Formula, AllocError>
    ensures { IfOk result (λ made. IsLabel (ltl made)) }
{
    let mut made = Formula::Atom(0);
    for _ in 0..times {
        let other = if with_atoms {
            Formula::Atom(1)
        } else {
            Formula::True
        };
        let left = Box::new(alloc, other)?;
        made = Formula::Equivalent(left, Box::new(alloc, made)?);
    }
    Ok(made)
}

#[test]
fn nested_equivalences_take_no_time(rt: HostRuntime) -> Result<(), Fail> {
    let plain = Masks::new(rt.alloc(), &equivalents(rt.alloc(), 500, false)?)?;
    assert!(rt;
        plain.cubes() == Some([cube(1, 0)].as_slice()) && plain.holds(1) && !plain.holds(2)
    );
    let masks = Masks::new(rt.alloc(), &equivalents(rt.alloc(), 500, true)?)?;
    assert!(rt; masks.cubes().is_none() && masks.holds(1) && !masks.holds(2));
    Ok(())
}
