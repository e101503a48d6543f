//! Satisfaction of small formulas on short letters, and the rows that letters reach.
use crate::plain::given::{formula, one_rule, rows};
use rv_model::Letter;
use rv_reference::{View, satisfies};
use std::alloc::{AllocError, Global};
use std::process::Abort;
use std::test::Fail;

/// Letters of the sets that the text has, a digit each.
fn letters(rt: &impl Abort, alloc: Global, text: &str) -> Result<Vec<Letter>, AllocError> {
    let mut list = Vec::new(alloc);
    for byte in text.as_bytes() {
        assert!(rt; *byte >= 48 && *byte < 58, "{text}");
        list.push(Letter::Atoms(*byte as u32 - 48))?;
    }
    Ok(list)
}

#[test]
fn formulas_hold_weakly_and_strongly_as_they_read(rt: HostRuntime) -> Result<(), Fail> {
    // the formula, the letters (A is 1, B is 2), whether it holds weakly and strongly
    const CASES: &[(&str, &str, bool, bool)] = &[
        ("0", "", true, false),
        ("1", "", true, false),
        ("A!", "", true, false),
        ("1", "0", true, true),
        ("0", "0", false, false),
        ("A", "1", true, true),
        ("A", "2", false, false),
        ("A!", "2", true, true),
        ("0n", "0", true, false),
        ("0n", "00", false, false),
        ("0n!", "0", true, false),
        ("1n", "0", true, false),
        ("1n", "00", true, true),
        ("Ae", "00", true, false),
        ("Ae", "010", true, true),
        ("Aa", "11", true, false),
        ("Aa", "101", false, false),
        ("Aa!", "11", true, false),
        ("Aa!", "10", true, true),
        ("ABu", "0", false, false),
        ("ABu", "11", true, false),
        ("ABu", "112", true, true),
        ("ABu", "102", false, false),
        ("ABu", "2", true, true),
        ("ABu!", "11", true, false),
        ("ABu!", "10", true, true),
        ("ABr", "", true, false),
        ("ABr", "0", false, false),
        ("ABr", "1", false, false),
        ("ABr", "3", true, true),
        ("ABr", "22", true, false),
        ("ABr", "230", true, true),
        ("ABr", "21", false, false),
        ("ABr!", "22", true, false),
        ("ABr!", "20", true, true),
        ("ABw", "", true, false),
        ("ABw", "0", false, false),
        ("ABw", "2", true, true),
        ("ABw", "11", true, false),
        ("ABw", "112", true, true),
        ("ABw", "102", false, false),
        ("ABw!", "11", true, false),
        ("ABw!", "10", true, true),
        ("AB&", "3", true, true),
        ("AB&", "1", false, false),
        ("AB|", "2", true, true),
        ("AB>", "1", false, false),
        ("AB>", "0", true, true),
        ("AB=", "0", true, true),
        ("AB=", "2", false, false),
        ("AnBn=", "1", true, false),
        ("AnBn=", "12", false, false),
        ("BA!>a", "22", true, false),
        ("BA!>a", "23", false, false),
        ("ABe>a", "1", true, false),
        ("ABe>a", "12", true, false),
    ];
    for &(text, word, weakly, strongly) in CASES {
        let formula = formula(&rt, rt.alloc(), text)?;
        let word = letters(&rt, rt.alloc(), word)?;
        let holds = (
            satisfies(&formula, View::Weak, &word),
            satisfies(&formula, View::Strong, &word),
        );
        assert!(rt; holds == (weakly, strongly), "at {text}");
    }
    Ok(())
}

#[test]
fn the_sleep_rule_fails_where_its_rows_end(rt: HostRuntime) -> Result<(), Fail> {
    // A: RT and SLEEP. B: a valid reason or a kernel thread. C: WAKE. D: a friendly wake. E: an allowed block.
    // The rule is always (A imply ((B and (not C until D)) or E)), whose nine rows stand here.
    const LABELS: &[&[&str]] = &[
        &[],
        &["A!"],
        &["B", "C!"],
        &["B", "D"],
        &["E"],
        &["A!", "C!"],
        &["A!", "D"],
        &["B", "C!", "D"],
        &["C!", "E"],
        &["D", "E"],
    ];
    let again = 2 + 4 + 8 + 16;
    let pending = 4 + 8 + 32 + 64 + 128 + 256 + 512;
    let nexts = [
        again, again, pending, again, again, pending, again, pending, pending, again,
    ];
    let mut list: Vec<(&[&str], u32)> = Vec::new(rt.alloc());
    for (texts, next) in LABELS.iter().zip(nexts.iter()) {
        list.push((*texts, *next))?;
    }
    let nodes = rows(&rt, rt.alloc(), list.as_slice())?;
    let plan = one_rule(&rt, rt.alloc(), "ABC!Du&E|>a", nodes, 0)?;
    assert!(rt; plan.monitors.len() == 1);
    // the letters, and the rows that they reach; A is 1, B 2, C 4, D 8, E 16
    const CASES: &[(&[u32], u32)] = &[
        (&[], 1),
        (&[0], 2),
        (&[1], 0),
        (&[3], 4),
        (&[3, 4], 0),
        (&[3, 12], 64),
        (&[3, 12, 0], 2),
        (&[17, 0], 2),
        (&[3, 0, 0, 4], 0),
    ];
    for &(sets, wanted) in CASES {
        let mut word = Vec::new(rt.alloc());
        for set in sets {
            word.push(Letter::Atoms(*set))?;
        }
        let reached = plan.monitors[0].rows(&word);
        let good = plan.monitors[0].is_good(&word);
        assert!(rt;
            reached == wanted && good == (wanted != 0),
            "after {}",
            sets.len()
        );
    }
    Ok(())
}
