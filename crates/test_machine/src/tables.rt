//! Rules from their text on, as tables and as the plain programs judge them.
ghost use Rattle.std.specs.Prelude.{◌≤◌};
ghost use Rattle.rv_model.specs.Weights.{weight};

use crate::formulas::formula_table;
use rv_ltl::read_ltl;
use rv_model::{Formula, Letter, Rule};
use rv_reference::{View, satisfies};
use rv_table::Table;
use rv_text::Refused;
use std::alloc::Global;
use std::test::Fail;

/// Over the atoms A and B.
const RULES: &[&str] = &[
    "RULE = A imply B",
    "RULE = not next A",
    "RULE = A and next B",
    "RULE = A or next next B",
    "RULE = A equivalent next B",
    "RULE = (next A) equivalent (next B)",
    "RULE = always A",
    "RULE = not always A",
    "RULE = eventually B",
    "RULE = not eventually B",
    "RULE = next false",
    "RULE = not next true",
    "RULE = A until B",
    "RULE = not (A until B)",
    "RULE = (not A) until (A and B)",
    "RULE = (A until B) until A",
    "RULE = A until (B until A)",
    "RULE = (A until B) and (B until A)",
    "RULE = true until next A",
    "RULE = always (A imply next B)",
    "RULE = not always (A imply next B)",
    "RULE = always (A imply eventually B)",
    "RULE = always (A imply (B until not A))",
    "RULE = always not (A and B)",
    "RULE = eventually always A",
    "RULE = always eventually A",
    "RULE = (always A) or (eventually B)",
    "RULE = not (A equivalent eventually B)",
    "RULE = (next next A) and (eventually not B)",
    "RULE = A release B",
    "RULE = not (A release B)",
    "RULE = A weak_until B",
    "RULE = not (A weak_until B)",
    "RULE = always (A imply (B release not A))",
    "RULE = (next A) weak_until (B and next B)",
    "RULE = A release (B weak_until next A)",
    "RULE = X imply Y  X = A until next B  Y = eventually (A and next A)",
];

/// The table of a rule.
fn table_of(alloc: Global, rule: &Rule) -> Result<Table, Refused>
    requires { weight rule.now.formula ≤ 1024 }
{
    formula_table(alloc, &rule.formula)
}

/// Whether the table reaches some row by the letters exactly where the formula holds weakly.
fn agrees(table: &Table, formula: &Formula, letters: &[Letter]) -> bool {
    let mut set = table.start();
    for letter in letters {
        set = table.step(set, *letter);
    }
    (set != 0) == satisfies(formula, View::Weak, letters)
}

#[test]
fn tables_of_rules_agree_with_the_plain_evaluator(rt: HostRuntime) -> Result<(), Fail> {
    for &text in RULES {
        let rule = read_ltl(rt.alloc(), text.as_bytes())?;
        let table = table_of(rt.alloc(), &rule)?;
        for word in 0..256u32 {
            let letters = [
                Letter::Atoms(word & 3),
                Letter::Atoms(word >> 2 & 3),
                Letter::Atoms(word >> 4 & 3),
                Letter::Atoms(word >> 6 & 3),
            ];
            for length in 0..5usize {
                assert!(rt;
                    agrees(&table, &rule.formula, &letters[..length]),
                    "{text} on {word}"
                );
            }
        }
    }
    Ok(())
}
